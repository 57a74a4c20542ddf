use crate::{Declarations, Family};
use lg_base::{Name, NoMemory, Seq, Text};
use std::alloc::Global;
use std::test::Fail;

/// The example of a declaration: a report of what was extracted.
static EXAMPLE: &str = r#"
[task.Extract]
command = ["fetch", "{date}", "{output}"]
outputs = ["raw/{date}.txt"]
[task.Extract.params.date]
kind = "date"

[task.Report]
command = ["make-report", "{input.0}", "{output}"]
outputs = ["rep/{date}.txt"]
requires = [{ task = "Extract", params = { date = "{date}" } }]
[task.Report.params.date]
kind = "date"
"#;

/// Files that declare tasks, and how many families.
static GOOD: [(&str, &str); 14] = [
    ("", "0"),
    ("[task]", "0"),
    ("[task.A]", "1"),
    ("[task.A]\nexternal = false\ncommand = ['x']", "1"),
    ("[task.A]\nexternal = true", "1"),
    ("[task.A]\ncommand = ['{output}']\noutputs = ['o']", "1"),
    (
        "[task.A]\ncommand = ['{output}']\n[task.A.params.output]",
        "1",
    ),
    (
        "[task.A]\ncommand = ['{output.1}', '{input.1}']\noutputs = ['o', 'p']\nrequires = [{task='B'}, {task='A'}]\n[task.B]",
        "2",
    ),
    ("[task.A.params.k]\nkind = 'choice'\nchoices = []", "1"),
    (
        "[task.A.params.k]\nkind = 'choice'\nchoices = ['b', 'a']\ndefault = 'a'\nbatch = 'max'",
        "1",
    ),
    ("[task.A.params.k]\ndefault = 'any'\nbatch = 'csv'", "1"),
    (
        "[task.A.params.k]\nkind = 'int'\ndefault = '+1'\nbatch = 'min'",
        "1",
    ),
    (
        "[task.A]\nresources = {gpu = 4294967295, '' = 0}\npriority = -9223372036854775808",
        "1",
    ),
    (
        "[task.A]\nretry_count = 0\ndisable_window = 1000000000000\ndisable_hard_timeout = 1\nmax_batch_size = 1",
        "1",
    ),
];

/// One file for each cause.
static FAULTS: [(&str, &str); 58] = [
    ("x =", "no TOML"),
    ("[task.A]\n[task.A]", "no TOML"),
    ("x = 1", "unknown key x"),
    ("[task.A]\nx = 1", "unknown key x"),
    ("[task.A.params.k]\nx = 1", "unknown key x"),
    (
        "[task.A]\nrequires = [{task = 'A', x = 1}]",
        "unknown key x",
    ),
    ("[task.A.params.k]\nkind = 'float'", "unknown kind float"),
    ("[task.A.params.k]\nbatch = 'sum'", "unknown kind sum"),
    (
        "[task.A.params.k]\nkind = 'int'\nbatch = 'csv'",
        "unknown kind csv",
    ),
    (
        "[task.A.params.k]\nkind = 'list'\nbatch = 'csv'",
        "unknown kind csv",
    ),
    ("[task.A]\nrequires = [{task = 'Q'}]", "unknown family Q"),
    (
        "[task.A.params.k]\nkind = 'choice'\nchoices = ['a', 'b', 'a']",
        "double name a",
    ),
    ("[task.A]\ncommand = ['{']", "bad template {"),
    ("[task.A]\ncommand = ['a}b']", "bad template a}b"),
    ("[task.A]\noutputs = ['{z}']", "bad template {z}"),
    ("[task.A]\ncommand = ['{output}']", "bad template {output}"),
    ("[task.A]\noutputs = ['{output}']", "bad template {output}"),
    (
        "[task.A]\ncommand = ['{output.1}']\noutputs = ['o']",
        "bad template {output.1}",
    ),
    (
        "[task.A]\ncommand = ['{output.00}']\noutputs = ['o']",
        "bad template {output.00}",
    ),
    (
        "[task.A]\ncommand = ['{input.0}']\nrequires = [{task='B'}]\n[task.B]",
        "bad template {input.0}",
    ),
    (
        "[task.A]\nrequires = [{task='B', params={p='{q}'}}]\n[task.B.params.p]\n[task.A.params.k]",
        "bad template {q}",
    ),
    ("task = 1", "bad value task"),
    ("[task]\nA = 1", "bad value A"),
    ("[task.1a]", "bad value 1a"),
    ("[task.'a-b']", "bad value a-b"),
    ("[task.'']", "bad value "),
    ("[task.é]", "no TOML"),
    ("[task.'é']", "bad value é"),
    ("[task.A]\ncommand = []", "bad value command"),
    ("[task.A]\ncommand = 'x'", "bad value command"),
    ("[task.A]\ncommand = [1]", "bad value command"),
    ("[task.A]\noutputs = 1", "bad value outputs"),
    ("[task.A]\noutputs = [[]]", "bad value outputs"),
    ("[task.A]\nexternal = 1", "bad value external"),
    (
        "[task.A]\nexternal = true\ncommand = ['x']",
        "bad value external",
    ),
    ("[task.A]\nrequires = 1", "bad value requires"),
    ("[task.A]\nrequires = [1]", "bad value requires"),
    ("[task.A]\nrequires = [{}]", "bad value task"),
    ("[task.A]\nrequires = [{task = 1}]", "bad value task"),
    (
        "[task.A]\nrequires = [{task = 'A', params = 1}]",
        "bad value params",
    ),
    (
        "[task.A]\nrequires = [{task = 'A', params = {k = 'x'}}]",
        "bad value k",
    ),
    (
        "[task.A]\nrequires = [{task = 'A', params = {k = 1}}]\n[task.A.params.k]",
        "bad value k",
    ),
    ("[task.A]\nresources = 1", "bad value resources"),
    ("[task.A]\nresources = {gpu = -1}", "bad value resources"),
    (
        "[task.A]\nresources = {gpu = 4294967296}",
        "bad value resources",
    ),
    ("[task.A]\npriority = 1.0", "bad value priority"),
    ("[task.A]\nretry_count = -1", "bad value retry_count"),
    (
        "[task.A]\ndisable_window = 1000000000001",
        "bad value disable_window",
    ),
    (
        "[task.A]\ndisable_hard_timeout = '1'",
        "bad value disable_hard_timeout",
    ),
    ("[task.A]\nmax_batch_size = 0", "bad value max_batch_size"),
    ("[task.A]\nparams = 1", "bad value params"),
    ("[task.A.params]\nk = 1", "bad value k"),
    ("[task.A.params.k]\nkind = 1", "bad value kind"),
    ("[task.A.params.k]\ndefault = 1", "bad value default"),
    (
        "[task.A.params.k]\nkind = 'date'\ndefault = '2023-02-29'",
        "bad value default",
    ),
    (
        "[task.A.params.k]\nsignificant = 'x'",
        "bad value significant",
    ),
    ("[task.A.params.k]\nchoices = ['a']", "bad value choices"),
    ("[task.A.params.k]\nkind = 'choice'", "bad value choices"),
];

/// Files with two causes, of which the first counts.
static ORDER: [(&str, &str); 15] = [
    ("y = 1\nx = 1", "unknown key x"),
    ("task = 1\nz = 1", "unknown key z"),
    ("[task.B]\nx = 1\n[task.A]\ny = 1", "unknown key y"),
    ("[task.'a-']\nx = 1", "bad value a-"),
    ("[task.A]\ncommand = []\nx = 1", "unknown key x"),
    ("[task.A]\noutputs = 1\ncommand = 1", "bad value command"),
    (
        "[task.A]\nexternal = true\ncommand = ['{z}']",
        "bad template {z}",
    ),
    (
        "[task.A]\nexternal = true\ncommand = ['x']\noutputs = ['{z}']",
        "bad template {z}",
    ),
    (
        "[task.A]\noutputs = ['{a-}', 1]\n[task.A.params.'a-']",
        "bad value outputs",
    ),
    (
        "[task.A]\noutputs = ['{a-}']\n[task.A.params.'a-']",
        "bad value a-",
    ),
    (
        "[task.A]\nrequires = [{task = 'Q', params = 1}, 1]",
        "unknown family Q",
    ),
    (
        "[task.A]\nrequires = [{task = 'A', params = {b = 1, a = 1}}]",
        "bad value a",
    ),
    (
        "[task.A.params.k]\nkind = 'choice'\ndefault = 1\nsignificant = 1",
        "bad value significant",
    ),
    (
        "[task.A.params.k]\nkind = 'choice'\ndefault = 'b'\nchoices = ['a']\nbatch = 'x'",
        "bad value default",
    ),
    (
        "[task.A.params.k]\nkind = 'choice'\nchoices = ['a', 'a', 1]",
        "double name a",
    ),
];

/// How many families a file declares, or its fault.
fn outcome(alloc: Global, file: &str) -> Result<String, NoMemory> {
    match Declarations::read(alloc, file.as_bytes()) {
        Ok(declarations) => Ok(format!(in alloc; "{}", declarations.families.len())?),
        Err(fault) => Ok(format!(in alloc; "{fault}")?),
    }
}

/// What the first output of a family spells for a date.
fn output_for(alloc: Global, family: &Family, date: &str) -> Result<Text, NoMemory> {
    let mut values = Vec::new(alloc);
    let name = Name::from(Text::copied(alloc, "date")?);
    values.push((name, Text::copied(alloc, date)?))?;
    match family.outputs.as_slice() {
        [output, ..] => output.spell(alloc, &values),
        [] => Ok(Text::copied(alloc, "")?),
    }
}

#[test]
fn read_the_example_whole(rt: HostRuntime) -> Result<(), Fail> {
    let declarations = Declarations::read(rt.alloc(), EXAMPLE.as_bytes())?;
    let expected = [
        ("Extract", 3, 0, "raw/2024-02-29.txt"),
        ("Report", 3, 1, "rep/2024-02-29.txt"),
    ];
    assert_eq!(rt; declarations.families.len(), expected.len());
    for (family, (name, words, requirements, output)) in declarations
        .families
        .as_slice()
        .iter()
        .zip(expected)
    {
        assert_eq!(rt; family.name.as_str(), name);
        assert_eq!(rt; family.command.as_ref().map_or(0, Seq::len), words);
        assert_eq!(rt; family.requirements.len(), requirements);
        assert_eq!(rt; family.params.len(), 1);
        assert_eq!(rt;
            output_for(rt.alloc(), family, "2024-02-29")?.as_str(),
            output
        );
    }
    Ok(())
}

#[test]
fn read_good_files(rt: HostRuntime) -> Result<(), Fail> {
    for (file, expected) in &GOOD {
        assert_eq!(rt; outcome(rt.alloc(), file)?.as_str(), *expected, "{file}");
    }
    Ok(())
}

#[test]
fn tell_each_cause(rt: HostRuntime) -> Result<(), Fail> {
    for (file, expected) in &FAULTS {
        assert_eq!(rt; outcome(rt.alloc(), file)?.as_str(), *expected, "{file}");
    }
    Ok(())
}

#[test]
fn tell_the_first_cause(rt: HostRuntime) -> Result<(), Fail> {
    for (file, expected) in &ORDER {
        assert_eq!(rt; outcome(rt.alloc(), file)?.as_str(), *expected, "{file}");
    }
    Ok(())
}
