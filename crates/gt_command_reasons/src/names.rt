//! The name of a text.
ghost use Rattle.std.specs.Prelude.{◌≡◌};
ghost use Rattle.std.specs.Option.{option_map};
ghost use Rattle.gt_command_reasons.specs.Names.{shown_name};

/// Returns the name with which lines begin: that of the file, or `<stdin>` if none is named.
pub fn shown_name<'a>(name: Option<&'a str>) -> &'a str
    ensures { result.now ≡ shown_name (option_map (λ f. f.now) name.entry) }
{
    match name {
        Some(name) => name,
        None => "<stdin>",
    }
}
