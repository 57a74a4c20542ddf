use crate::{Fields, Out, TakeFault, canonical, emit, emit_parts, length, parts_length, quote};
use lg_base::{Name, Text};
use lg_io::{FaultList, MemorySink, NoFaults};
use serde_json::Value;
use std::alloc::Global;
use std::process::Abort;
use std::test::Fail;

fn text(alloc: Global, text: &str) -> Result<Out, Fail> {
    Ok(Out::Str(Text::copied(alloc, text)?))
}

fn written(alloc: Global, tree: &Out) -> Result<Vec<u8>, Fail> {
    let mut sink = MemorySink::new(alloc, 3, NoFaults);
    emit(tree, &mut sink)?;
    Ok(sink.bytes().to_vec(alloc)?)
}

/// Plain texts and what they are between quotes.
const QUOTED: [(&str, &str); 8] = [
    ("", "\"\""),
    (" ~", "\" ~\""),
    ("a\"b\\c/d", "\"a\\\"b\\\\c/d\""),
    ("\n\r\t\u{8}\u{c}", "\"\\n\\r\\t\\b\\f\""),
    ("\0\u{1f}\u{7f}", "\"\\u0000\\u001f\\u007f\""),
    ("é\u{ffff}", "\"\\u00e9\\uffff\""),
    ("😀", "\"\\ud83d\\ude00\""),
    ("\u{10000}x\u{10ffff}", "\"\\ud800\\udc00x\\udbff\\udfff\""),
];

#[test]
fn texts_are_printable_ascii(rt: HostRuntime) -> Result<(), Fail> {
    for (plain, expected) in QUOTED {
        let tree = text(rt.alloc(), plain)?;
        assert_eq!(rt;
            written(rt.alloc(), &tree)?.as_slice(),
            expected.as_bytes(),
            "{plain:?}"
        );
        assert_eq!(rt; length(&tree), expected.len() as u64, "{plain:?}");
        assert_eq!(rt; quote(rt.alloc(), plain)?.as_str(), expected, "{plain:?}");
    }
    Ok(())
}

fn pair(alloc: Global, name: &str, value: &str) -> Result<(Name, Text), Fail> {
    Ok((
        Name::text(alloc, name.as_bytes())?,
        Text::copied(alloc, value)?,
    ))
}

#[test]
fn canonical_texts_are_compact(rt: HostRuntime) -> Result<(), Fail> {
    let alloc = rt.alloc();
    let long = vec![in alloc;
        pair(alloc, "a", "0123456789abcdef")?,
        pair(alloc, "b", "0123456789abcdefg")?,
        pair(alloc, "c", "x-😀")?,
    ]?;
    let significant = vec![in alloc;
        pair(alloc, "a", "1")?,
        pair(alloc, "c", "3")?,
        pair(alloc, "d", "4")?,
    ]?;
    let rows = [
        (Vec::new(alloc), "{}"),
        (
            long,
            "{\"a\":\"0123456789abcdef\",\"b\":\"0123456789abcdefg\",\"c\":\"x-\\ud83d\\ude00\"}",
        ),
        (significant, "{\"a\":\"1\",\"c\":\"3\",\"d\":\"4\"}"),
    ];
    for (pairs, expected) in rows {
        assert_eq!(rt; canonical(alloc, &pairs)?.as_str(), expected);
    }
    Ok(())
}

#[test]
fn canonical_texts_have_the_escapes_of_texts(rt: HostRuntime) -> Result<(), Fail> {
    for (plain, expected) in QUOTED {
        let pairs = vec![in rt.alloc(); pair(rt.alloc(), plain, plain)?]?;
        let expected = format!(in rt.alloc(); "{{{expected}:{expected}}}")?;
        assert_eq!(rt; canonical(rt.alloc(), &pairs)?.as_str(), expected.as_str());
    }
    Ok(())
}

#[test]
fn trees_are_compact(rt: HostRuntime) -> Result<(), Fail> {
    let alloc = rt.alloc();
    let inner = vec![in alloc;
        (Name::text(alloc, b"")?, Out::Int(i64::MIN)),
        (Name::text(alloc, "é".as_bytes())?, Out::Int(i64::MAX)),
    ]?;
    let items = vec![in alloc;
        Out::Null,
        Out::Truth(true),
        Out::Truth(false),
        Out::Int(0),
        Out::List(Vec::new(alloc)),
        Out::Object(Vec::new(alloc)),
        Out::Object(inner),
        text(alloc, "x")?,
    ]?;
    let tree = Out::Object(vec![in alloc; (Name::text(alloc, b"response")?, Out::List(items))]?);
    let expected =
        "{\"response\":[null,true,false,0,[],{},{\"\":-9223372036854775808,\"\\u00e9\":9223372036854775807},\"x\"]}";
    assert_eq!(rt; written(alloc, &tree)?.as_slice(), expected.as_bytes());
    assert_eq!(rt; length(&tree), expected.len() as u64);
    Ok(())
}

#[test]
fn a_write_that_fails_ends_the_text(rt: HostRuntime) -> Result<(), Fail> {
    let alloc = rt.alloc();
    let items = vec![in alloc; Out::Int(-1), text(alloc, "aé\"")?]?;
    let tree = Out::Object(vec![in alloc; (Name::text(alloc, b"n")?, Out::List(items))]?);
    let expected = b"{\"n\":[-1,\"a\\u00e9\\\"\"]}";
    for place in 0..expected.len() {
        let plan = FaultList::new(vec![in alloc; place as u64]?);
        let mut sink = MemorySink::new(alloc, 1, plan);
        assert!(rt; emit(&tree, &mut sink).is_err(), "{place}");
        assert_eq!(rt; sink.bytes(), &expected[..place]);
        assert_eq!(rt; sink.planned_faults(), 1);
    }
    Ok(())
}

/// One refusal in parts, cut at different places.
const REFUSAL: [&[&str]; 4] = [
    &["missing a\"b\\c\n\r\t\u{8}\u{c}\0\u{1f}\u{7f}é\u{ffff}😀\u{10000}"],
    &[
        "missing ",
        "a\"b\\c\n\r\t\u{8}\u{c}\0\u{1f}\u{7f}é\u{ffff}😀\u{10000}",
    ],
    &[
        "",
        "missing a\"",
        "b\\c\n\r",
        "",
        "\t\u{8}\u{c}\0\u{1f}",
        "\u{7f}é",
        "\u{ffff}😀",
        "\u{10000}",
        "",
    ],
    &[
        "missing ",
        "a",
        "\"",
        "b",
        "\\",
        "c",
        "\n",
        "\r",
        "\t",
        "\u{8}",
        "\u{c}",
        "\0",
        "\u{1f}",
        "\u{7f}",
        "é",
        "\u{ffff}",
        "😀",
        "\u{10000}",
    ],
];

/// The refusal as JSON has it.
const REFUSED: &str =
    "\"missing a\\\"b\\\\c\\n\\r\\t\\b\\f\\u0000\\u001f\\u007f\\u00e9\\uffff\\ud83d\\ude00\\ud800\\udc00\"";

fn assert_parts(
    rt: &impl Abort,
    alloc: Global,
    parts: &[&str],
    expected: &str,
) -> Result<(), Fail> {
    let mut sink = MemorySink::new(alloc, 3, NoFaults);
    emit_parts(parts, &mut sink)?;
    assert_eq!(rt; sink.bytes(), expected.as_bytes(), "{parts:?}");
    assert_eq!(rt; parts_length(parts), expected.len() as u64, "{parts:?}");
    Ok(())
}

#[test]
fn parts_are_one_text_wherever_it_is_cut(rt: HostRuntime) -> Result<(), Fail> {
    for parts in REFUSAL {
        assert_parts(&rt, rt.alloc(), parts, REFUSED)?;
    }
    let empty: [&[&str]; 3] = [&[], &[""], &["", ""]];
    for parts in empty {
        assert_parts(&rt, rt.alloc(), parts, "\"\"")?;
    }
    Ok(())
}

#[test]
fn a_write_that_fails_ends_the_parts(rt: HostRuntime) -> Result<(), Fail> {
    for parts in REFUSAL {
        for place in 0..REFUSED.len() {
            let plan = FaultList::new(vec![in rt.alloc(); place as u64]?);
            let mut sink = MemorySink::new(rt.alloc(), 1, plan);
            assert!(rt; emit_parts(parts, &mut sink).is_err(), "{place}");
            assert_eq!(rt; sink.bytes(), &REFUSED.as_bytes()[..place]);
            assert_eq!(rt; sink.planned_faults(), 1);
        }
    }
    Ok(())
}

fn fields(alloc: Global) -> Result<Fields, Fail> {
    let object =
        "{\"null\":null,\"text\":\"é\",\"list\":[],\"half\":1.5,\"one\":1.0,\"big\":9223372036854775808,\
        \"huge\":18446744073709551616,\"low\":-9223372036854775808,\"seven\":7}";
    Ok(Fields::from_value(Value::from_str(alloc, object)?)?)
}

#[test]
fn fields_are_taken_once(rt: HostRuntime) -> Result<(), Fail> {
    let mut fields = fields(rt.alloc())?;
    let texts = [
        ("absent", Ok(None)),
        ("null", Ok(None)),
        ("text", Ok(Some("é"))),
        ("text", Ok(None)),
        ("list", Err(TakeFault::WrongKind)),
        ("seven", Err(TakeFault::WrongKind)),
    ];
    for (name, expected) in texts {
        let taken = fields.take_text(name);
        let answer = match &taken {
            Ok(Some(text)) => Ok(Some(text.as_str())),
            Ok(None) => Ok(None),
            Err(fault) => Err(*fault),
        };
        assert_eq!(rt; answer, expected, "{name}");
    }
    let numbers = [
        ("absent", Ok(None)),
        ("list", Err(TakeFault::WrongKind)),
        ("half", Err(TakeFault::WrongKind)),
        ("one", Err(TakeFault::WrongKind)),
        ("huge", Err(TakeFault::WrongKind)),
        ("big", Err(TakeFault::OutOfRange)),
        ("big", Err(TakeFault::OutOfRange)),
        ("low", Ok(Some(i64::MIN))),
        ("seven", Ok(Some(7))),
        ("seven", Ok(None)),
    ];
    for (name, expected) in numbers {
        assert_eq!(rt; fields.take_int(name), expected, "{name}");
    }
    Ok(())
}

#[test]
fn truth_values_are_taken(rt: HostRuntime) -> Result<(), Fail> {
    let object = "{\"no\":false,\"null\":null,\"one\":1,\"text\":\"true\",\"yes\":true}";
    let mut fields = Fields::from_value(Value::from_str(rt.alloc(), object)?)?;
    let rows = [
        ("absent", Ok(None)),
        ("null", Ok(None)),
        ("one", Err(TakeFault::WrongKind)),
        ("text", Err(TakeFault::WrongKind)),
        ("yes", Ok(Some(true))),
        ("yes", Ok(None)),
        ("no", Ok(Some(false))),
    ];
    for (name, expected) in rows {
        assert_eq!(rt; fields.take_truth(name), expected, "{name}");
    }
    Ok(())
}

/// The answer to taking the field `r` of an object with it, and whether the field is there afterwards.
fn amounts_of(
    alloc: Global,
    field: &str,
) -> Result<(Result<Option<String>, TakeFault>, bool), Fail> {
    let object = format!(in alloc; "{{\"r\":{field}}}")?;
    let mut fields = Fields::from_value(Value::from_str(alloc, &object)?)?;
    let answer = match fields.take_amounts(alloc, "r") {
        Ok(Some(amounts)) => {
            let mut shown = String::new(alloc);
            for (name, amount) in amounts.entries() {
                shown.push_str(&format!(in alloc; "{}={amount};", name.as_str())?)?;
            }
            Ok(Some(shown))
        }
        Ok(None) => Ok(None),
        Err(fault) => Err(fault),
    };
    Ok((answer, fields.take_first().is_some()))
}

#[test]
fn amounts_are_taken_within_their_range(rt: HostRuntime) -> Result<(), Fail> {
    let alloc = rt.alloc();
    let taken = [
        ("{\"db\":2}", "db=2;"),
        ("{}", ""),
        ("{\"b\":4294967295,\"a\":0,\"b\":1}", "a=0;b=1;"),
        ("{\"b\":4294967295}", "b=4294967295;"),
    ];
    for (field, expected) in taken {
        let (answer, stays) = amounts_of(alloc, field)?;
        let shown = matches!(&answer, Ok(Some(shown)) if shown.as_str() == expected);
        assert!(rt; shown && !stays, "{field}");
    }
    let refused = [
        ("{\"db\":-1}", TakeFault::OutOfRange),
        ("{\"db\":4294967296}", TakeFault::OutOfRange),
        ("{\"db\":\"2\"}", TakeFault::WrongKind),
        ("{\"db\":null}", TakeFault::WrongKind),
        ("{\"db\":1.0}", TakeFault::WrongKind),
        ("{\"b\":-1,\"a\":[]}", TakeFault::WrongKind),
        ("{\"b\":[],\"a\":-1}", TakeFault::OutOfRange),
        ("[]", TakeFault::WrongKind),
        ("2", TakeFault::WrongKind),
    ];
    for (field, expected) in refused {
        let (answer, stays) = amounts_of(alloc, field)?;
        let refused = matches!(&answer, Err(fault) if *fault == expected);
        assert!(rt; refused && stays, "{field}");
    }
    let mut fields = fields(alloc)?;
    assert!(rt; matches!(&fields.take_amounts(alloc, "absent"), Ok(None)));
    assert!(rt; matches!(&fields.take_amounts(alloc, "null"), Ok(None)));
    Ok(())
}

#[test]
fn texts_and_pairs_are_taken_whole(rt: HostRuntime) -> Result<(), Fail> {
    let alloc = rt.alloc();
    let object =
        "{\"list\":[\"é\",\"\",\"a\"],\"mixed\":[\"a\",null],\"null\":null,\"object\":{\"b\":\"x\",\"a\":\"é\"},\
        \"odd\":{\"a\":1}}";
    let mut fields = Fields::from_value(Value::from_str(alloc, object)?)?;
    for name in ["mixed", "object", "odd"] {
        assert!(rt;
            matches!(&fields.take_texts(alloc, name), Err(TakeFault::WrongKind)),
            "{name}"
        );
    }
    for name in ["mixed", "list", "odd"] {
        assert!(rt;
            matches!(&fields.take_pairs(alloc, name), Err(TakeFault::WrongKind)),
            "{name}"
        );
    }
    let texts = fields.take_texts(alloc, "list")?.expect(&rt, "the list");
    assert_eq!(rt; texts.len(), 3);
    for (text, expected) in texts.iter().zip(["é", "", "a"]) {
        assert_eq!(rt; text.as_str(), expected);
    }
    let pairs = fields
        .take_pairs(alloc, "object")?
        .expect(&rt, "the object");
    assert_eq!(rt; pairs.len(), 2);
    for ((name, value), expected) in pairs.iter().zip([("a", "é"), ("b", "x")]) {
        assert_eq!(rt; (name.as_str(), value.as_str()), expected);
    }
    for name in ["absent", "list", "null", "object"] {
        assert!(rt;
            matches!(&fields.take_texts(alloc, name), Ok(None)),
            "{name}"
        );
        assert!(rt;
            matches!(&fields.take_pairs(alloc, name), Ok(None)),
            "{name}"
        );
    }
    Ok(())
}

#[test]
fn the_first_field_is_the_first_in_the_order_of_bytes(rt: HostRuntime) -> Result<(), Fail> {
    let alloc = rt.alloc();
    let object = "{\"b\":1,\"a\":2,\"é\":null,\"Z\":[3]}";
    let mut fields = Fields::from_value(Value::from_str(alloc, object)?)?;
    for (name, value) in [("Z", "[3]"), ("a", "2"), ("b", "1"), ("é", "null")] {
        let (first, found) = fields.take_first().expect(&rt, name);
        assert_eq!(rt; first.as_str(), name);
        assert_eq!(rt; found.to_string(alloc)?.as_str(), value);
    }
    assert!(rt; fields.take_first().is_none());
    Ok(())
}

#[test]
fn any_value_is_taken_but_null(rt: HostRuntime) -> Result<(), Fail> {
    let mut fields = fields(rt.alloc())?;
    assert!(rt; matches!(&fields.take_value("half"), Some(value) if value.is_f64()));
    for name in ["absent", "half", "null"] {
        assert!(rt; fields.take_value(name).is_none(), "{name}");
    }
    Ok(())
}

#[test]
fn only_an_object_has_fields(rt: HostRuntime) -> Result<(), Fail> {
    for text in ["null", "true", "1", "\"{}\"", "[]"] {
        assert!(rt;
            Fields::from_value(Value::from_str(rt.alloc(), text)?).is_err(),
            "{text}"
        );
    }
    Ok(())
}
