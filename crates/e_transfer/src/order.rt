//! The order in which the variables of a transfer clause are best chosen, which is a matter of speed
//! alone, the marks of the negations of its literals, and where each mark is.

ghost use Rattle.std.specs.Prelude.{◌≡◌, ◌+◌, ◌<◌, [], slice_index_or};
ghost use Rattle.e_clause.specs.RuleKinds.{rule_count, diagram_rule_count};
ghost use Rattle.e_transfer.specs.inner.ClauseMarks;

use e_clause::TRANSFER_RULES;

/// The variables of each transfer clause, beside its name and in the order of the table: each early
/// where the facts then bind it.
static ORDERS: [&'static [u8]; TRANSFER_RULES as usize] = [
    &[0, 1], // ms1
    &[0, 1], // ms2
    &[0, 1, 2], // ms3
    &[0, 1, 2, 3], // ma1
    &[0, 1, 2, 3], // ma2
    &[0, 1, 2], // mr1
    &[0, 1, 2, 3], // mr2
    &[0, 1, 2], // ds1
    &[0, 3, 4, 1, 2], // ds2
    &[3, 0, 1, 2], // ds3a
    &[3, 0, 1, 2], // ds3b
    &[3, 0, 1, 2], // ds4a
    &[3, 0, 1, 2], // ds4b
    &[0, 3, 1, 2], // da1a
    &[0, 3, 1, 2], // da1b
    &[0, 3, 1, 2], // da1c
    &[0, 4, 5, 1, 2, 3], // da2a
    &[0, 4, 5, 1, 2, 3], // da2b
    &[0, 4, 5, 1, 2, 3], // da2c
    &[0, 4, 1, 2, 3], // da3a
    &[0, 4, 1, 2, 3], // da3b
    &[0, 5, 1, 3, 6, 2, 4], // da4
    &[1, 5, 2, 6, 3, 4, 0], // da5a
    &[1, 6, 2, 7, 3, 5, 0, 4], // da5b
    &[0, 3, 1, 2], // dr1a
    &[0, 3, 1, 2], // dr1b
    &[0, 4, 1, 2, 3], // dr2a
    &[0, 4, 1, 2, 3], // dr2b
    &[0, 1, 3, 4, 2, 5], // m9
];

/// The order for the transfer clause at this place of the table.
pub fn order(at: u8) -> &'static [u8]
    requires { diagram_rule_count + at < rule_count }
{
    ORDERS[at as usize]
}

/// The marks of the negations of the literals of each transfer clause, each once: those of diagrams
/// come first, and of them those that facts have least often.
static NEEDED: [&'static [u8]; TRANSFER_RULES as usize] = [
    &[19, 24], // ms1
    &[18, 25], // ms2
    &[18, 25], // ms3
    &[18, 25], // ma1
    &[18, 25], // ma2
    &[18, 25], // mr1
    &[18, 25], // mr2
    &[8, 25], // ds1
    &[23, 6, 2, 24], // ds2
    &[3, 6, 2, 24], // ds3a
    &[6, 2, 25], // ds3b
    &[5, 6, 2, 26], // ds4a
    &[4, 6, 2, 27], // ds4b
    &[9, 19, 0, 25], // da1a
    &[1, 19, 0, 24], // da1b
    &[8, 19, 0, 24], // da1c
    &[1, 21, 10, 19, 0, 25], // da2a
    &[1, 11, 21, 19, 0, 24], // da2b
    &[1, 11, 21, 19, 0, 24], // da2c
    &[1, 8, 0, 25, 24], // da3a
    &[1, 8, 0, 25, 24], // da3b
    &[9, 19, 0, 25], // da4
    &[13, 10, 19, 0, 26], // da5a
    &[11, 10, 19, 0, 26], // da5b
    &[1, 19, 0, 24], // dr1a
    &[19, 0, 25], // dr1b
    &[1, 8, 19, 0, 25], // dr2a
    &[1, 9, 19, 0, 24], // dr2b
    &[25, 24], // m9
];

/// The marks of the negations of the literals of the transfer clause at this place of the table.
pub fn marks_needed(at: u8) -> &'static [u8]
    requires { diagram_rule_count + at < rule_count }
    ensures { result.now ≡ slice_index_or ClauseMarks.clause_needs at [] }
{
    NEEDED[at as usize]
}

/// Where literals of transfer clauses have each mark: the place of the clause in the table, and the
/// one in the clause.
static PLACES: [&'static [(u8, u8)]; 28] = [
    &[
        (14, 5),
        (16, 6),
        (16, 7),
        (17, 6),
        (17, 7),
        (18, 6),
        (18, 7),
        (19, 3),
        (20, 3),
        (24, 4),
        (26, 6),
        (27, 6),
    ],
    &[
        (13, 2),
        (13, 3),
        (13, 4),
        (14, 2),
        (14, 3),
        (15, 2),
        (15, 3),
        (16, 0),
        (16, 1),
        (16, 2),
        (16, 3),
        (17, 0),
        (17, 1),
        (17, 2),
        (17, 3),
        (18, 0),
        (18, 1),
        (18, 2),
        (18, 3),
        (19, 0),
        (19, 1),
        (20, 0),
        (20, 1),
        (21, 0),
        (21, 1),
        (21, 2),
        (21, 3),
        (21, 4),
        (21, 5),
        (22, 0),
        (22, 1),
        (22, 2),
        (22, 3),
        (22, 4),
        (22, 5),
        (23, 0),
        (23, 1),
        (23, 2),
        (23, 3),
        (23, 4),
        (23, 5),
        (23, 9),
        (23, 10),
        (24, 1),
        (24, 2),
        (25, 1),
        (25, 2),
        (25, 3),
        (26, 3),
        (26, 4),
        (26, 5),
        (27, 3),
        (27, 4),
        (27, 5),
    ],
    &[(9, 3)],
    &[(8, 2), (8, 3), (9, 1), (10, 1), (10, 2), (11, 1), (12, 1)],
    &[(11, 3)],
    &[(12, 2)],
    &[],
    &[(8, 0), (8, 1), (9, 0), (10, 0), (11, 0), (12, 0)],
    &[(13, 5), (21, 10), (21, 11), (27, 8)],
    &[(7, 0), (15, 5), (19, 2), (20, 2), (26, 7)],
    &[(17, 10), (18, 10), (23, 11)],
    &[(16, 9), (16, 10), (22, 7), (23, 7)],
    &[(22, 9)],
    &[],
    &[],
    &[],
    &[],
    &[],
    &[
        (0, 1),
        (13, 0),
        (13, 1),
        (14, 0),
        (14, 1),
        (15, 0),
        (15, 1),
        (16, 4),
        (16, 5),
        (17, 4),
        (17, 5),
        (18, 4),
        (18, 5),
        (21, 6),
        (21, 7),
        (21, 8),
        (21, 9),
        (22, 6),
        (23, 6),
        (24, 0),
        (25, 0),
        (26, 0),
        (26, 1),
        (26, 2),
        (27, 0),
        (27, 1),
        (27, 2),
    ],
    &[(1, 0), (2, 0), (3, 0), (4, 0), (5, 0), (6, 0)],
    &[(16, 8), (17, 8), (18, 8)],
    &[],
    &[(8, 5)],
    &[],
    &[
        (1, 1),
        (2, 1),
        (3, 1),
        (4, 1),
        (5, 1),
        (6, 1),
        (7, 1),
        (10, 3),
        (13, 6),
        (16, 11),
        (19, 5),
        (20, 5),
        (21, 12),
        (25, 4),
        (26, 8),
        (28, 6),
    ],
    &[
        (0, 0),
        (8, 4),
        (9, 2),
        (14, 4),
        (15, 4),
        (17, 9),
        (18, 9),
        (19, 4),
        (20, 4),
        (24, 3),
        (27, 7),
        (28, 0),
        (28, 1),
        (28, 2),
        (28, 3),
        (28, 4),
        (28, 5),
    ],
    &[(12, 3)],
    &[(11, 2), (22, 8), (23, 8)],
];

/// Where literals of transfer clauses have this mark.
pub fn places_with(mark: usize) -> &'static [(u8, u8)]
    requires { mark < 28 }
    ensures { result.now ≡ slice_index_or ClauseMarks.clause_places mark [] }
{
    PLACES[mark]
}
