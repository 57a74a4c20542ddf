use crate::{batch_id, task_id};
use lg_base::{Name, TaskId, Text};
use lg_json::Fields;
use serde_json::Value;
use std::alloc::Global;
use std::test::Fail;

fn pairs(alloc: Global, rows: &[(&str, &str)]) -> Result<Vec<(Name, Text)>, Fail> {
    let mut pairs = Vec::new(alloc);
    for (name, value) in rows {
        pairs.push((
            Name::text(alloc, name.as_bytes())?,
            Text::copied(alloc, value)?,
        ))?;
    }
    Ok(pairs)
}

// The ids are those of `hashlib.md5` over `json.dumps` and of `re.sub` in Python 3, put together as Luigi 3 does it.
#[test]
fn task_ids_are_those_of_luigi(rt: HostRuntime) -> Result<(), Fail> {
    let alloc = rt.alloc();
    let rows = [
        ("A", [].as_slice(), "A__99914b932b"),
        (
            "F",
            [
                ("a", "0123456789abcdef"),
                ("b", "0123456789abcdefg"),
                ("c", "x-😀"),
            ]
            .as_slice(),
            "F_0123456789abcdef_0123456789abcdef_x___bd9b897913",
        ),
        (
            "F",
            [("a", "1"), ("c", "3"), ("d", "4")].as_slice(),
            "F_1_3_4_2b6c6cca16",
        ),
        (
            "G",
            [("a", "1"), ("c", "3"), ("d", "4")].as_slice(),
            "G_1_3_4_2b6c6cca16",
        ),
        (
            "F",
            [("a", "ééééééééabcdefgh"), ("b", "😀😀😀😀😀😀😀😀abcdefghi")].as_slice(),
            "F_________abcdefgh_________abcdefgh_cdeb832ad3",
        ),
        (
            "F",
            [("a", "1"), ("b", "2"), ("c", "3"), ("d", "4")].as_slice(),
            "F_1_2_3_74a9631156",
        ),
        (
            "F",
            [("a", "1"), ("b", "2"), ("c", "3"), ("d", "5")].as_slice(),
            "F_1_2_3_c0c31e08c3",
        ),
        (
            "Été.x",
            [("n", ""), ("w", "Z_z\n9")].as_slice(),
            "Été.x__Z_z_9_0059ba4256",
        ),
    ];
    for (family, rows, expected) in rows {
        let family = Name::text(alloc, family.as_bytes())?;
        let pairs = pairs(alloc, rows)?;
        let id = task_id(alloc, &family, pairs.as_slice())?;
        assert_eq!(rt; id.as_str(), expected, "{expected}");
    }
    Ok(())
}

// The digits are those of `hashlib.md5` in Python 3, as `hashlib.md5(b"d1|d2").hexdigest()`.
#[test]
fn batch_ids_are_those_of_luigi(rt: HostRuntime) -> Result<(), Fail> {
    let alloc = rt.alloc();
    let rows = [
        ([].as_slice(), "d41d8cd98f00b204e9800998ecf8427e"),
        (["d1"].as_slice(), "9948c645c094247794f4c7acdbeb2bb6"),
        (["d1", "d2"].as_slice(), "9832aff1ccbfd798334d7b70c4d687d5"),
        (["d2", "d1"].as_slice(), "5221732b121a3e6f225da336e4367ddd"),
        (
            ["é", "F_1_3_4_2b6c6cca16"].as_slice(),
            "b31974f8314675e664714a980322dbab",
        ),
    ];
    for (texts, expected) in rows {
        let mut ids = Vec::new(alloc);
        for text in texts {
            ids.push(TaskId::text(alloc, text.as_bytes())?)?;
        }
        assert_eq!(rt;
            batch_id(alloc, ids.as_slice())?.as_str(),
            expected,
            "{expected}"
        );
    }
    Ok(())
}

// The fields of the worked example that ends with the batch of `d1` and `d2`.
#[test]
fn fields_of_the_example_are_taken(rt: HostRuntime) -> Result<(), Fail> {
    let alloc = rt.alloc();
    let mut fields = Fields::from_value(Value::from_str(alloc, "{\"b\":1,\"a\":2}")?)?;
    assert!(rt; matches!(&fields.take_amounts(alloc, "r"), Ok(None)));
    let (name, value) = fields.take_first().expect(&rt, "a field");
    assert_eq!(rt; name.as_str(), "a");
    assert_eq!(rt; value.as_u64(), Some(2));
    Ok(())
}
