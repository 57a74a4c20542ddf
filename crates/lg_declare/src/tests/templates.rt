use crate::{Template, TemplateFault, command_names};
use lg_base::{Name, NoMemory, Text};
use std::alloc::Global;
use std::test::Fail;

/// Templates that may use `date` and `n`; each with what it spells where `date` is `2024-02-29` and `n` is `é`.
static TEMPLATES: [(&str, &str); 12] = [
    ("", ""),
    ("raw", "raw"),
    ("rep/{date}.txt", "rep/2024-02-29.txt"),
    ("{date}", "2024-02-29"),
    ("{date}{n}{date}", "2024-02-29é2024-02-29"),
    ("{{", "{"),
    ("}}", "}"),
    ("{{date}}", "{date}"),
    ("{{{date}}}", "{2024-02-29}"),
    ("}}{{{{}}", "}{{}"),
    ("é{n}ü→{n}", "ééü→é"),
    ("a}}b{{c{n}", "a}b{cé"),
];

/// Texts that are no templates there.
static NO_TEMPLATES: [&str; 14] = [
    "{",
    "}",
    "{date",
    "date}",
    "{{date}",
    "{date}}",
    "{{{date}}",
    "{z}",
    "{}",
    "{da{te}",
    "{date}{z}",
    "{ date}",
    "{Date}",
    "{é}",
];

fn name(alloc: Global, text: &str) -> Result<Name, NoMemory> {
    Ok(Name::from(Text::copied(alloc, text)?))
}

fn names_of(alloc: Global, texts: &[&str]) -> Result<Vec<Name>, NoMemory> {
    let mut names = Vec::new(alloc);
    for text in texts {
        names.push(name(alloc, text)?)?;
    }
    Ok(names)
}

fn values(alloc: Global) -> Result<Vec<(Name, Text)>, NoMemory> {
    let pairs: [[&str; 2]; 3] = [["date", "2024-02-29"], ["n", "é"], ["n", "later"]];
    let mut values = Vec::new(alloc);
    for pair in pairs {
        values.push((name(alloc, pair[0])?, Text::copied(alloc, pair[1])?))?;
    }
    Ok(values)
}

/// What a template with these names spells, or the words of its fault.
fn spelled(alloc: Global, text: &str, names: &[Name]) -> Result<Text, NoMemory> {
    let text = Text::copied(alloc, text)?;
    match Template::read(alloc, &text, names) {
        Ok(template) => template.spell(alloc, &values(alloc)?),
        Err(TemplateFault::BadTemplate) => Ok(Text::copied(alloc, "no template")?),
        Err(TemplateFault::NoMemory) => Err(NoMemory),
    }
}

#[test]
fn spell_bytes_braces_and_values(rt: HostRuntime) -> Result<(), Fail> {
    let names = names_of(rt.alloc(), &["date", "n"])?;
    for (text, expected) in &TEMPLATES {
        assert_eq!(rt;
            spelled(rt.alloc(), text, &names)?.as_str(),
            *expected,
            "{text}"
        );
    }
    Ok(())
}

#[test]
fn refuse_lone_braces_and_other_names(rt: HostRuntime) -> Result<(), Fail> {
    let names = names_of(rt.alloc(), &["date", "n"])?;
    for text in &NO_TEMPLATES {
        assert_eq!(rt;
            spelled(rt.alloc(), text, &names)?.as_str(),
            "no template",
            "{text}"
        );
    }
    Ok(())
}

#[test]
fn name_outputs_and_inputs_in_commands(rt: HostRuntime) -> Result<(), Fail> {
    let parameters = names_of(rt.alloc(), &["date", "output"])?;
    let names = command_names(rt.alloc(), parameters, 2, &[true, false, true])?;
    let expected = [
        "output", "output.0", "output.1", "input.0", "input.2", "date", "output",
    ];
    assert_eq!(rt; names.len(), expected.len());
    for (name, expected) in names.iter().zip(expected) {
        assert_eq!(rt; name.as_str(), expected);
    }
    let parameters = names_of(rt.alloc(), &["date"])?;
    let names = command_names(rt.alloc(), parameters, 0, &[])?;
    assert_eq!(rt; names.len(), 1);
    Ok(())
}
