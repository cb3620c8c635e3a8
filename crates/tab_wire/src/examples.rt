//! Worked examples: each `ensures` is computed by the definitions alone.

ghost use Rattle.std.specs.Prelude.{◌≡◌, true};
ghost use Rattle.std.specs.List.{list_all};
ghost use Rattle.tab_spec.specs.Commands.{all_commands};
ghost use Rattle.tab_wire.specs.Table.{keeps_rule, rise_above};

// Over the whole table: at most the first handle has an authorization, no handle stands after an
// absent one, and the codes rise.
fn the_table_keeps_its_rule()
    ensures rows { list_all keeps_rule all_commands ≡ true }
    ensures codes { rise_above 0 all_commands ≡ true }
{}
