//! The lines of steps and closes, without certificates.
ghost use Rattle.std.specs.Prelude.{◌≡◌, ◌++◌, ◌∷◌, codes, map, OnOk};
ghost use Rattle.e_text.specs.Tokens.{with_spaces};
ghost use Rattle.e_line.specs.declared.raw_line.RawLine.TheVariants as rawlines;
ghost use Rattle.e_names.specs.TitledStatements.{title_at};
ghost use Rattle.e_line.specs.Canonical.{line_of, lit_words};
ghost use Rattle.e_names.specs.Canonical.{rule_name, name_of_object, raw_of};
ghost use Rattle.e_names.specs.Canonical.{by_raw_line, let_raw_line, apply_raw_line};
ghost use Rattle.e_names.specs.Canonical.{claim_raw_line, qed_raw_line};
ghost use Rattle.e_spell.specs.inner.Parts.{raw_line_text, superposition_text};

use crate::literals::{
    names_of_arguments, names_of_objects, placed_names, put_literal, put_objects,
};
use crate::rules::put_rule;
use e_clause::{By, Rule};
use e_construct::{Construction, Superpose};
use e_deriv::Names;
use e_line::{put_apply, put_let, put_named, put_stated, put_superpose};
use e_literal::{Lit, Obj};
use e_names::{Theorems, raw_lits};
use e_text::{Name, end_line, put};
use std::alloc::{AllocError, Global};
use std::{mem, slice};

/// A citation after its first word.
fn put_cited(
    alloc: Global,
    out: &mut Vec<u8>,
    names: &Names,
    rule: Rule,
    args: &[Obj],
    lit: &Lit,
) -> Result<(), AllocError>
    ensures { OnOk result (out.new.items ≡ out.old.items ++ with_spaces (rule_name rule
        ∷ (map (name_of_object names.now) args.now ++ codes ":" ∷ lit_words (raw_of names.now lit.now)))) }
{
    put_rule(out, rule)?;
    put_objects(out, names, args)?;
    put(out, b":")?;
    put_literal(alloc, out, names, lit)?;
    Ok(())
}

/// A rule, its objects and the literal that it gives.
pub(crate) fn put_citation(
    alloc: Global,
    out: &mut Vec<u8>,
    names: &Names,
    by: &By,
) -> Result<(), AllocError>
    ensures { OnOk result
        (out.new.items ≡ out.old.items ++ raw_line_text (by_raw_line names.now by.now)) }
{
    out.extend_from_slice(b"by")?;
    put_cited(alloc, out, names, by.rule, by.args.items(), &by.lit)?;
    end_line(out)
}

/// A construction, with names for the objects that it makes.
pub(crate) fn put_construction(
    alloc: Global,
    out: &mut Vec<u8>,
    names: &Names,
    construction: &Construction,
    new: &[Name],
) -> Result<(), AllocError>
    ensures { OnOk result (out.new.items ≡ out.old.items
        ++ raw_line_text (let_raw_line names.now construction.now new.now)) }
{
    let args = names_of_objects(alloc, names, construction.args.items())?;
    let avoid = match names_of_objects(alloc, names, construction.avoid.items()) {
        Ok(avoid) => avoid,
        Err(error) => {
            mem::drop(args);
            return Err(error);
        }
    };
    let shapes = slice::from_ref(&construction.shape);
    let put = put_let(out, shapes, new, args.items(), avoid.items());
    mem::drop(avoid);
    mem::drop(args);
    put?;
    end_line(out)
}

/// The use of the theorem at a place by its title; by no word where there is none.
#[tactic(auto, using(crate::proofs::Applied::titles_at))]
fn put_by_title(
    out: &mut Vec<u8>,
    known: &Theorems,
    place: usize,
    args: &[Option<Name>],
    new: &[Name],
) -> Result<(), AllocError>
    ensures { OnOk result (out.new.items ≡ out.old.items ++ line_of (rawlines.Apply
        (record { title = title_at known.now place; args = args.now; new = new.now }))) }
{
    if place < known.len() {
        put_apply(out, known.title(place).bytes(), args, new)
    } else {
        put_apply(out, b"", args, new)
    }
}

/// The use of an earlier theorem, with names for the objects that it makes.
pub(crate) fn put_application(
    alloc: Global,
    out: &mut Vec<u8>,
    known: &Theorems,
    names: &Names,
    theorem: u32,
    args: &[Option<Obj>],
    new: &[Name],
) -> Result<(), AllocError>
    ensures { OnOk result (out.new.items ≡ out.old.items
        ++ raw_line_text (apply_raw_line known.now names.now theorem args.now new.now)) }
{
    let args = names_of_arguments(alloc, names, args)?;
    let put = put_by_title(out, known, theorem as usize, args.items(), new);
    mem::drop(args);
    put?;
    end_line(out)
}

/// What a claim shows.
pub(crate) fn put_claim(
    alloc: Global,
    out: &mut Vec<u8>,
    names: &Names,
    shown: &[Lit],
) -> Result<(), AllocError>
    ensures { OnOk result
        (out.new.items ≡ out.old.items ++ raw_line_text (claim_raw_line names.now shown.now)) }
{
    let raws = raw_lits(alloc, names, shown)?;
    let put = put_stated(out, b"claim", raws.items());
    mem::drop(raws);
    put?;
    end_line(out)
}

/// A superposition, with names for the copied points, and with the literals that its block shows.
#[tactic(auto, unfolding(crate::specs::inner::Parts::superposition_text))]
pub(crate) fn put_superposition(
    alloc: Global,
    out: &mut Vec<u8>,
    names: &Names,
    superposition: Superpose,
    new: &[Name],
    shown: &[Lit],
) -> Result<(), AllocError>
    ensures { OnOk result (out.new.items ≡ out.old.items
        ++ superposition_text names.now superposition new.now shown.now) }
{
    let args = placed_names(alloc, names, superposition)?;
    let raws = match raw_lits(alloc, names, shown) {
        Ok(raws) => raws,
        Err(error) => {
            mem::drop(args);
            return Err(error);
        }
    };
    let put = put_superpose(out, args.items(), new, raws.items());
    mem::drop(raws);
    mem::drop(args);
    put?;
    end_line(out)
}

/// The objects that a block concludes with.
pub(crate) fn put_conclusion(
    alloc: Global,
    out: &mut Vec<u8>,
    names: &Names,
    objects: &[Obj],
) -> Result<(), AllocError>
    ensures { OnOk result
        (out.new.items ≡ out.old.items ++ raw_line_text (qed_raw_line names.now objects.now)) }
{
    let objects = names_of_objects(alloc, names, objects)?;
    let put = put_named(out, b"qed", objects.items());
    mem::drop(objects);
    put?;
    end_line(out)
}
