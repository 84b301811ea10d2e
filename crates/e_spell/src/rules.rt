//! The names of rules.
ghost use Rattle.std.specs.Prelude.{◌≡◌, ◌++◌, ◌∷◌, OnOk};
ghost use Rattle.e_names.specs.Canonical.{rule_name};

use e_clause::Rule;
use e_text::put;
use std::alloc::AllocError;

/// The name of a rule in the table.
pub(crate) fn rule_name(rule: Rule) -> &'static [u8]
    ensures { result.now ≡ rule_name rule }
{
    rule.name().as_bytes()
}

/// The name of a rule, after a space.
pub(crate) fn put_rule(out: &mut Vec<u8>, rule: Rule) -> Result<(), AllocError>
    ensures { OnOk result (out.new.items ≡ out.old.items ++ 32 ∷ rule_name rule) }
{
    put(out, rule_name(rule))
}
