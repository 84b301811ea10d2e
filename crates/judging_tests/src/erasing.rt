//! A derivation that is erased.
use e_clause::{Cert, Part};
use e_deriv::{Block, Close, Step, erase};
use e_literal::{Atom, Items, Lit};
use std::alloc::{AllocError, Global};
use std::test::Fail;

/// A derivation of one `hence` line, with its certificates.
fn derivation(alloc: Global) -> Result<Block, AllocError> {
    let lit = Lit {
        neg: false,
        atom: Atom::EqP(0, 0),
    };
    let cert = Some(Cert::Plain(Part::Fact));
    let certs = Items::new(vec![in alloc; Cert::Plain(Part::Fact)]?);
    Ok(Block {
        steps: vec![in alloc; Step::Hence { lit, cert }]?,
        close: Close::Qed {
            objects: Items::empty(alloc),
            certs,
        },
    })
}

#[test]
fn a_derivation_is_erased(rt: HostRuntime) -> Result<(), Fail> {
    let derivation = derivation(rt.alloc())?;
    let script = erase(rt.alloc(), &derivation)?;
    assert!(rt; matches!(&script.close, Close::Qed { certs, .. } if certs.is_empty()));
    assert!(rt; matches!(script.steps.as_slice(), [Step::Hence { cert: None, .. }]));
    Ok(())
}
