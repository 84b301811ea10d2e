//! Rules, their instances, and a sum.

use crate::answer::Answer;
use crate::rows::{objects, text_in_quotes, two};
use e_clause::{RowName, Rule, Sum, instance};
use e_literal::{Obj, Term};
use std::alloc::{AllocError, Global};

/// Puts a rule, an instance of one, or whether a sum has the rows that it was made of.
pub fn put(alloc: Global, out: &mut Answer, call: &str, on: &str) -> Result<(), AllocError> {
    match call {
        "rule" => {
            put_rule(out, text_in_quotes(on));
            Ok(())
        }
        "instance" => put_instance(alloc, out, on),
        _ => put_sum(alloc, out),
    }
}

fn put_rule(out: &mut Answer, name: &str) {
    match Rule::named(name.as_bytes()) {
        None => out.word("none"),
        Some(rule) => {
            out.word(rule.name());
            out.show(&rule.sig());
            out.show(&rule.is_transfer());
        }
    }
}

fn put_instance(alloc: Global, out: &mut Answer, on: &str) -> Result<(), AllocError> {
    let (name, letters) = two(on, " ");
    let args = objects(alloc, letters)?;
    match Rule::named(name.as_bytes()) {
        None => out.word("none"),
        Some(rule) => put_instance_at(alloc, out, rule, &args),
    }
    Ok(())
}

fn put_instance_at(alloc: Global, out: &mut Answer, rule: Rule, args: &[Obj]) {
    match instance(alloc, rule, args) {
        Ok(lits) => out.literals(&lits),
        Err(fault) => out.show(&fault),
    }
}

// Whether a sum has the two rows that it was made of.
fn put_sum(alloc: Global, out: &mut Answer) -> Result<(), AllocError> {
    let sum = Sum::new(vec![in alloc; (1, RowName::Pos(Term::Seg(0, 1))), (-3, RowName::Goal)]?);
    let kept = matches!(
        sum.rows(),
        [(1, RowName::Pos(Term::Seg(0, 1))), (-3, RowName::Goal)]
    );
    out.show(&kept);
    Ok(())
}
