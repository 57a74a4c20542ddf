//! What the definitions come to.
ghost use Rattle.std.specs.Prelude.{◌≡◌, [], Some};
ghost use Rattle.std.specs.FinMap.{empty};
ghost use Rattle.toml.specs.Data.{Members};
ghost use Rattle.lg_calls.specs.Settings.{default_settings};
ghost use Rattle.lg_settings.specs.Names.{scheduler_keys, section_names, AgreeAt};
ghost use Rattle.lg_settings.specs.Scheduler.{scheduler};
ghost use Rattle.lg_settings.specs.Sections.{sections};
ghost use Rattle.lg_settings.specs.Settings.{settings_of};

/// An empty file gives the defaults of the scheduler, and no limits.
pub fn an_empty_file_gives_the_defaults()
    ensures { settings_of [] ≡ Some (default_settings, empty) }
{}

/// Of the section `[scheduler]` no other key makes a difference.
pub fn other_keys_make_no_difference()
    ensures { (one other : Members) → AgreeAt scheduler_keys one other → scheduler one ≡ scheduler other }
{}

/// Of the file no other section makes a difference.
pub fn other_sections_make_no_difference()
    ensures { (one other : Members) → AgreeAt section_names one other → sections one ≡ sections other }
{}
