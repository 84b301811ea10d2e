//! Constructions, and superposition.

use crate::answer::Answer;
use crate::rows::{number, objects, two};
use e_construct::{Construction, Piece, Shape, Superpose, all_shapes, may_avoid, pieces, takes};
use e_literal::{Items, Scope};
use std::alloc::{AllocError, Global};

const SCOPE: Scope = Scope {
    points: 20,
    lines: 20,
    circles: 20,
};

const SMALL: Scope = Scope {
    points: 15,
    lines: 20,
    circles: 20,
};

static TRIANGLES: Superpose = Superpose {
    points: [1, 2, 3, 4, 5, 6],
    lines: [12, 13],
};

/// Puts what a superposition or a construction is, needs and gives.
pub fn put(alloc: Global, out: &mut Answer, call: &str, on: &str) -> Result<(), AllocError> {
    match call {
        "superpose" => put_superposed(alloc, out),
        _ => put_at_shape(alloc, out, call, on),
    }
}

// The call on the shape with this number.
fn put_at_shape(alloc: Global, out: &mut Answer, call: &str, on: &str) -> Result<(), AllocError> {
    let (place, on) = two(on, " ");
    match all_shapes().get(number(place)) {
        None => out.word("none"),
        Some(shape) => put_of_shape(alloc, out, call, &construction(alloc, *shape, on)?)?,
    }
    Ok(())
}

fn construction(alloc: Global, shape: Shape, on: &str) -> Result<Construction, AllocError> {
    let (args, avoid) = two(on, " : ");
    let args = objects(alloc, args)?;
    let avoid = objects(alloc, avoid)?;
    Ok(Construction {
        shape,
        args: Items::new(args),
        avoid: Items::new(avoid),
    })
}

fn put_of_shape(
    alloc: Global,
    out: &mut Answer,
    call: &str,
    made: &Construction,
) -> Result<(), AllocError> {
    match call {
        "fits" => out.show(&made.fits(SMALL)),
        "takes" => out.show(&takes(made.shape, made.args.items())),
        _ => put_made(alloc, out, made)?,
    }
    Ok(())
}

// The line of a shape, with `+` for the name of a new object and `.` for that of an argument, and
// whether it may avoid.
fn put_line(out: &mut Answer, shape: Shape) {
    for piece in pieces(shape) {
        match piece {
            Piece::New => out.word("+"),
            Piece::Argument => out.word("."),
            Piece::Word(word) => out.word(str::from_utf8(word).unwrap_or("no text")),
        }
    }
    out.show(&may_avoid(shape));
}

// The shape, its line, what it needs, and what it gives.
fn put_made(alloc: Global, out: &mut Answer, made: &Construction) -> Result<(), AllocError> {
    out.show(&made.shape);
    put_line(out, made.shape);
    out.word("needs");
    out.literals(&made.needs(alloc)?);
    out.word("gives");
    out.literals(&made.gives(alloc, SCOPE)?);
    Ok(())
}

fn put_superposed(alloc: Global, out: &mut Answer) -> Result<(), AllocError> {
    out.show(&TRIANGLES.fits(SCOPE));
    out.show(&TRIANGLES.made());
    out.word("needs");
    out.literals(&TRIANGLES.needs(alloc)?);
    out.word("gives");
    out.literals(&TRIANGLES.gives(alloc, SCOPE)?);
    Ok(())
}
