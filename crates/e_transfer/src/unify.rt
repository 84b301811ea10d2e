//! The binding of each variable.

ghost use Rattle.std.specs.Prelude.{◌≡◌, ◌<◌, ℕ, IfOk, slice_set, length};
ghost use Rattle.e_transfer.specs.inner.Bindings;
ghost use Rattle.e_transfer.specs.inner.Bindings.{BindingsAgree, TakesIn, BindingsAre};
ghost use Rattle.e_transfer.specs.declared.equations.Equation.TheVariants as bound;

use crate::equations::Equation;
use e_literal::Items;
use std::alloc::{AllocError, Global};

/// The binding of a variable.
#[derive(Clone, Copy)]
pub enum Binding {
    /// It is chosen.
    Free,
    /// It is the object with this number.
    Is(u16),
    /// It is the same as another variable.
    As(usize),
}

/// The binding of a variable; one that has none is free.
pub fn binding_of(bindings: &[Binding], variable: usize) -> Binding
    ensures { result ≡ Bindings.binding_at bindings.now variable }
{
    match bindings.get(variable) {
        Some(binding) => *binding,
        None => Binding::Free,
    }
}

/// The variable that represents this one, at the end of a chain.
pub fn representative(bindings: &[Binding], variable: usize) -> usize
    requires { variable < length bindings.now }
    ensures below { result < length bindings.now }
    ensures holds { (f : ℕ → ℕ) → BindingsAgree f bindings.now → f result ≡ f variable }
{
    let mut at = variable;
    for _ in 0..bindings.len() {
        match binding_of(bindings, at) {
            Binding::As(next) if next < bindings.len() => at = next,
            _ => return at,
        }
    }
    at
}

fn set_binding(bindings: &mut [Binding], variable: usize, binding: Binding)
    ensures { bindings.new ≡ slice_set bindings.old variable binding }
{
    if variable < bindings.len() {
        bindings[variable] = binding;
    }
}

/// Binds the variable to a number; false where it has another.
fn bind_value(bindings: &mut [Binding], variable: usize, number: u16) -> bool
    ensures { TakesIn bindings.old bindings.new (bound.Is variable number) result }
{
    if variable >= bindings.len() {
        return true;
    }
    let at = representative(bindings, variable);
    match binding_of(bindings, at) {
        Binding::Is(number_before) => number_before == number,
        _ => {
            set_binding(bindings, at, Binding::Is(number));
            true
        }
    }
}

/// Binds two variables to each other; false where they have different numbers.
fn bind_variables(bindings: &mut [Binding], first: usize, second: usize) -> bool
    ensures { TakesIn bindings.old bindings.new (bound.Same first second) result }
{
    if first >= bindings.len() || second >= bindings.len() {
        return true;
    }
    let one = representative(bindings, first);
    let other = representative(bindings, second);
    if one == other {
        return true;
    }
    match (binding_of(bindings, one), binding_of(bindings, other)) {
        (Binding::Is(a), Binding::Is(b)) => a == b,
        (Binding::Is(_), _) => {
            set_binding(bindings, other, Binding::As(one));
            true
        }
        _ => {
            set_binding(bindings, one, Binding::As(other));
            true
        }
    }
}

fn take_in(bindings: &mut [Binding], equation: Equation) -> bool
    ensures { TakesIn bindings.old bindings.new equation result }
{
    match equation {
        Equation::Is(variable, number) => bind_value(bindings, variable, number),
        Equation::Same(first, second) => bind_variables(bindings, first, second),
    }
}

/// The bindings of `total` variables by these equations, or none where they contradict each other.
pub fn unify(
    alloc: Global,
    total: usize,
    equations: &[Equation],
) -> Result<Option<Items<Binding>>, AllocError>
    ensures { IfOk result (BindingsAre total equations.now) }
{
    let mut bindings = vec![in alloc; Binding::Free; total]?;
    for b in equations {
        if !take_in(&mut bindings, *b) {
            return Ok(None);
        }
    }
    Ok(Some(Items::new(bindings)))
}
