//! Worked systems, whose answers were found by hand or by another solver.

use crate::rows::rows;
use e_fraction::have_small_coefficients;
use e_simplex::{Verdict, decide};
use std::alloc::{AllocError, Global};
use std::process::Abort;
use std::test::Fail;

// Rows, and what is answered.
fn systems() -> &'static str {
    "\
>a-b >-a+b:absurd
>a-b:holds
>a !a-b !b:holds
=a-b !a-b:absurd
=1000000a-1000000b =1000000b-1000000c =1000000c-1000000d !a-d:absurd
=:holds
+:holds
>:absurd
!:absurd
=a+b+c+d >a:absurd
=a+b+c+d +-a:holds
+-a >a:absurd
+-a !a:absurd
>2a-b >-a+2b:holds
>2a-3b >-a+b:absurd
>a-b >b-c >c-d >-a+d:absurd
>a-b >b-c >c-d >-2a+3d:holds
!a-b !a-c !a-d !b-c !b-d !c-d:holds
!a-b !a-c !b-c !a !b !c =a+b-c:holds
!a-b =a-c =b-c:absurd
!a+b =b+c =a+d:absurd
=2a-3b !a-b:holds
=2a-3b !2a-3b:absurd
=a-2b =-2a+b !a:absurd
+a-11b-5c+18d +a-3b-c+2d +-a+b+c-d >a:holds
+-a+11b+5c-18d +-a+3b+c-2d +-a >-10a+57b+9c+24d:holds
+-a+60b+c-9d +-a+90b+c-3d +-c >3a-600b+4c-24d:absurd
>1073741824a-1073741823b >-1073741824a+1073741823b:absurd
>1073741824a-1073741823b >-1073741823a+1073741824b:holds
>a-b-c >-a+b-c >-a-b+c:absurd
>a-b-c >-a+b-c >-a-b+c !a-b:absurd
=a-b-c =-a+b-c !c:absurd
+a-b +-a+b !a-b:absurd
+a-b +b-c +-a+c !a-c >d:absurd
+a-b !a-b +-a+2b:holds
>-a+2b-3c-2d =a-3b-3d =2a+2b-2c =2a-3b-2c =2a-3b-3d:absurd
+2b-c-2d >-a-2b+d =-2a-3b+3d !a+3b+3c+d >-b-2d:absurd
>3a+b+3c =-2a+2b-c+d +3a+2b-3c-2d >a+b+3c+3d =-2a+3c-2d:holds
=3b+2d >-3a+3b+c-d =3a-3b +2b+2c+3d =-a+3b+2c:absurd
+2a+2c+d !-b-2c-d +-3c+3d +-3c-d !a+b-c-3d:holds
!2a+2b+2c+2d =3a+2b-3c =3b-c-2d >-3a-2b-3c-d =a-3b-2c:absurd
!-a+c+d !-2a-2b+3c+3d !3a-2c-d =a+3c-d =b-c-3d:holds
>-2a+c-d >b +2a+3d >-3a-3b+3d >b+3c+d:holds
>-2a-2c !b+3d =3a+b-2c-2d !3b-c+2d >-2a+2b+3c+2d:absurd
>2a-b-3c+d !2a-b-c-3d !-a-3b-c-d +3a-2b-3c+d !-2a-3b:holds
>a =b-1073741824a =c-1073741824b =d-1073741824c:too wide"
}

fn answer(rt: &impl Abort, alloc: Global, system: &str) -> Result<&'static str, AllocError> {
    let rows = rows(rt, alloc, system)?;
    assert!(rt; rows.len() <= 4096 && have_small_coefficients(&rows));
    Ok(match decide(alloc, &rows)? {
        Verdict::Holds(_) => "holds",
        Verdict::Absurd(_) => "absurd",
        Verdict::TooWide => "too wide",
    })
}

#[test]
fn what_has_a_solution(rt: HostRuntime) -> Result<(), Fail> {
    for line in systems().split('\n') {
        let (system, wanted) = line.split_once(':').unwrap_or(("", ""));
        assert_eq!(rt; answer(&rt, rt.alloc(), system)?, wanted, "at {line}");
    }
    Ok(())
}
