ghost use Rattle.std.specs.Prelude.{◌≡◌};
ghost use Rattle.lg_target.specs.Naming.{folder_above};

/// What stands before the last `/` of a path, and nothing where it has none.
pub(crate) fn folder_above(path: &str) -> &str
    ensures { result.now ≡ folder_above path.now }
{
    match path.rsplit_once('/') {
        Some((folder, _)) => folder,
        None => "",
    }
}
