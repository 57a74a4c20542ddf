//! The section `[resources]`.

use super::shown;
use std::test::Fail;

/// A section, and the limits that it gives as they show.
static LIMITS: [(&str, &str); 4] = [
    (
        "gpu = 2",
        "Amounts { pairs: [(Name { text: Text { inner: \"gpu\" } }, 2)] }",
    ),
    (
        "none = 0\nmost = 4294967295",
        "Amounts { pairs: [(Name { text: Text { inner: \"most\" } }, 4294967295), \
         (Name { text: Text { inner: \"none\" } }, 0)] }",
    ),
    (
        "'a b' = 1\nZ = 2",
        "Amounts { pairs: [(Name { text: Text { inner: \"Z\" } }, 2), (Name { text: Text { inner: \"a b\" } }, 1)] }",
    ),
    ("", "Amounts { pairs: [] }"),
];

#[test]
fn limits_stand_in_the_order_of_their_names(rt: HostRuntime) -> Result<(), Fail> {
    for (section, limits) in LIMITS {
        let file = format!(in rt.alloc(); "[resources]\n{section}\n[scheduler]\nmax_tasks = 7\n")?;
        let answer = shown(rt.alloc(), file.as_str())?;
        assert!(rt; answer.as_str().contains(limits), "{section}");
        assert!(rt; answer.as_str().contains("max_tasks: 7 }"), "{section}");
    }
    Ok(())
}
