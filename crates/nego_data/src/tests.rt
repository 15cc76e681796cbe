//! Sizes and tables once, with memory at hand: that they answer, and not always want of memory.
ghost use Rattle.std.specs.Prelude.{◌≡◌, ℕ, List, [], ◌∷◌, length, IfOk};
ghost use Rattle.nego_data.specs.Data.{data_count};
ghost use Rattle.nego_data.specs.CaseForm.{FitsSize, AreAmong, NamesOnly, AssignsOnce, AssignsBelow, term_agents};

use crate::cases::{Case, Operand, Set, Term, Test};
use crate::{SizeFault, Sizes, Table, TableFault, TableMaker};
use nego_base::{AgentId, AgentSet, Memory, Op, Seq};
use std::alloc::Global;
use std::process::Abort;
use std::test::Fail;

const A: AgentId = AgentId(0);

const B: AgentId = AgentId(1);

const C: AgentId = AgentId(2);

fn case_of(alloc: Global, tests: &[Test], sets: &[Set]) -> Result<Case, Memory>
    ensures tests { IfOk result (λ case. case.tests ≡ tests.now) }
    ensures sets { IfOk result (λ case. case.sets ≡ sets.now) }
{
    Ok(Case {
        tests: Seq::copy_of(alloc, tests)?,
        sets: Seq::copy_of(alloc, sets)?,
    })
}

/// The table of one agent of size 4, of one case that assigns the term.
fn assigned(alloc: Global, term: Term) -> Result<Table, TableFault>
    requires fits { FitsSize term 4 }
    requires own { AreAmong (0 ∷ []) (term_agents term) }
    ensures { IfOk result (λ table. length table ≡ 4) }
{
    let sizes = Sizes::new(&[4]).unwrap();
    let sets = [Set { agent: A, term }];
    let cases = [case_of(alloc, &[], &sets)?];
    TableMaker::new(alloc, &sizes, AgentSet::none().with(A)).table(alloc, &cases)
}

/// What is answered of two agents of sizes 4 and 2, and the one case `a<3 : a:=b`.
fn partial(alloc: Global, sizes: &Sizes) -> Result<Table, TableFault>
    requires { sizes.now ≡ 4 ∷ 2 ∷ [] }
{
    let tests = [Test {
        agent: A,
        op: Op::Lt,
        right: Operand::Number(3),
    }];
    let sets = [Set {
        agent: A,
        term: Term::Plus(B, 0),
    }];
    let cases = [case_of(alloc, &tests, &sets)?];
    TableMaker::new(alloc, sizes, AgentSet::none().with(A).with(B)).table(alloc, &cases)
}

/// Whether the table has just these pairs.
fn has(table: &Table, all: u16, pairs: &[(u16, u16)]) -> bool
    requires { length table.now ≡ all }
{
    for d in 0..all {
        for e in 0..all {
            if table.related(d, e) != pairs.contains(&(d, e)) {
                return false;
            }
        }
    }
    true
}

/// What is expected of the row of d: how many it has, the k-th of them, and whether e is one.
#[derive(Clone, Copy)]
struct ExpectedRow {
    d: u16,
    count: u16,
    k: u16,
    nth: Option<u16>,
    e: u16,
    related: bool,
}

/// What is expected of the three cases below over sizes 64 and 16.
const FULL: [ExpectedRow; 6] = [
    ExpectedRow {
        d: 37,
        count: 64,
        k: 40,
        nth: Some(654),
        e: 655,
        related: false,
    },
    ExpectedRow {
        d: 45,
        count: 79,
        k: 47,
        nth: Some(527),
        e: 512,
        related: true,
    },
    ExpectedRow {
        d: 45,
        count: 79,
        k: 79,
        nth: None,
        e: 1023,
        related: true,
    },
    ExpectedRow {
        d: 49,
        count: 1,
        k: 0,
        nth: Some(48),
        e: 49,
        related: false,
    },
    ExpectedRow {
        d: 814,
        count: 17,
        k: 1,
        nth: Some(1008),
        e: 815,
        related: true,
    },
    ExpectedRow {
        d: 1008,
        count: 1,
        k: 0,
        nth: Some(1023),
        e: 1022,
        related: false,
    },
];

/// What is expected of them over sizes 60 and 17, where 17 values in a row stand astride the words.
const ASTRIDE: [ExpectedRow; 5] = [
    ExpectedRow {
        d: 39,
        count: 60,
        k: 59,
        nth: Some(1017),
        e: 65,
        related: true,
    },
    ExpectedRow {
        d: 64,
        count: 76,
        k: 48,
        nth: Some(576),
        e: 575,
        related: true,
    },
    ExpectedRow {
        d: 64,
        count: 76,
        k: 76,
        nth: None,
        e: 578,
        related: false,
    },
    ExpectedRow {
        d: 864,
        count: 18,
        k: 0,
        nth: Some(866),
        e: 1003,
        related: true,
    },
    ExpectedRow {
        d: 1019,
        count: 17,
        k: 16,
        nth: Some(1019),
        e: 1002,
        related: false,
    },
];

/// The case `a<b : a:=* b:=b+9`.
fn spread(alloc: Global) -> Result<Case, Memory>
    ensures names { IfOk result (NamesOnly (0 ∷ 1 ∷ [])) }
    ensures once { IfOk result AssignsOnce }
    ensures fits { IfOk result (λ case. (sizes : List ℕ) → AssignsBelow sizes case) }
{
    let tests = [Test {
        agent: A,
        op: Op::Lt,
        right: Operand::Value(B),
    }];
    let sets = [
        Set {
            agent: A,
            term: Term::Any,
        },
        Set {
            agent: B,
            term: Term::Plus(B, 9),
        },
    ];
    case_of(alloc, &tests, &sets)
}

/// The case `a>=b : b:=a-5`.
fn lowered(alloc: Global) -> Result<Case, Memory>
    ensures names { IfOk result (NamesOnly (0 ∷ 1 ∷ [])) }
    ensures once { IfOk result AssignsOnce }
    ensures fits { IfOk result (λ case. (sizes : List ℕ) → AssignsBelow sizes case) }
{
    let tests = [Test {
        agent: A,
        op: Op::Ge,
        right: Operand::Value(B),
    }];
    let sets = [Set {
        agent: B,
        term: Term::Minus(A, 5),
    }];
    case_of(alloc, &tests, &sets)
}

/// The case `b>12 : a:=a+30 b:=*`.
fn raised(alloc: Global) -> Result<Case, Memory>
    ensures names { IfOk result (NamesOnly (0 ∷ 1 ∷ [])) }
    ensures once { IfOk result AssignsOnce }
    ensures fits { IfOk result (λ case. (sizes : List ℕ) → AssignsBelow sizes case) }
{
    let tests = [Test {
        agent: B,
        op: Op::Gt,
        right: Operand::Number(12),
    }];
    let sets = [
        Set {
            agent: A,
            term: Term::Plus(A, 30),
        },
        Set {
            agent: B,
            term: Term::Any,
        },
    ];
    case_of(alloc, &tests, &sets)
}

/// The table of two agents, of the three cases.
fn wide(alloc: Global, sizes: &Sizes) -> Result<Table, TableFault>
    requires { length sizes.now ≡ 2 }
    ensures { IfOk result (λ table. length table ≡ data_count sizes.now) }
{
    let cases = [spread(alloc)?, lowered(alloc)?, raised(alloc)?];
    TableMaker::new(alloc, sizes, AgentSet::none().with(A).with(B)).table(alloc, &cases)
}

/// Whether the table of so many joint data has the row that is expected.
fn has_row(table: &Table, all: u16, row: &ExpectedRow) -> bool
    requires { length table.now ≡ all }
{
    row.d < all
        && row.e < all
        && table.count(row.d) == row.count
        && table.nth(row.d, row.k) == row.nth
        && table.related(row.d, row.e) == row.related
}

#[test]
fn sizes_and_tables(rt: HostRuntime) -> Result<(), Fail> {
    faults(&rt);
    let any = assigned(rt.alloc(), Term::Any)?;
    assert!(rt; (0..4).all(|d| (0..4).all(|e| any.related(d, e))));
    assert!(rt; (any.count(2), any.nth(2, 3), any.nth(2, 4)) == (4, Some(3), None));
    let more = assigned(rt.alloc(), Term::Plus(A, 1))?;
    assert!(rt; has(&more, 4, &[(0, 1), (1, 2), (2, 3), (3, 3)]));
    let less = assigned(rt.alloc(), Term::Minus(A, 2))?;
    assert!(rt; has(&less, 4, &[(0, 0), (1, 0), (2, 0), (3, 1)]));
    let sizes = Sizes::new(&[4, 2])?;
    assert!(rt; partial(rt.alloc(), &sizes).err() == Some(TableFault::NotTotal(6)));
    Ok(())
}

/// Tables whose rows have 16 words, which they fill or not.
#[test]
fn rows_of_many_words(rt: HostRuntime) -> Result<(), Fail> {
    let full = wide(rt.alloc(), &Sizes::new(&[64, 16])?)?;
    assert!(rt; FULL.iter().all(|row| has_row(&full, 1024, row)));
    let astride = wide(rt.alloc(), &Sizes::new(&[60, 17])?)?;
    assert!(rt; ASTRIDE.iter().all(|row| has_row(&astride, 1020, row)));
    Ok(())
}

/// The case `a<1 : a:=1 c:=*`.
fn started(alloc: Global) -> Result<Case, Memory>
    ensures names { IfOk result (NamesOnly (0 ∷ 2 ∷ [])) }
    ensures once { IfOk result AssignsOnce }
    ensures fits { IfOk result (AssignsBelow (2 ∷ 3 ∷ 2 ∷ [])) }
{
    let tests = [Test {
        agent: A,
        op: Op::Lt,
        right: Operand::Number(1),
    }];
    let sets = [
        Set {
            agent: A,
            term: Term::Number(1),
        },
        Set {
            agent: C,
            term: Term::Any,
        },
    ];
    case_of(alloc, &tests, &sets)
}

/// The case `a>=1 : c:=c-1`.
fn counted(alloc: Global) -> Result<Case, Memory>
    ensures names { IfOk result (NamesOnly (0 ∷ 2 ∷ [])) }
    ensures once { IfOk result AssignsOnce }
    ensures fits { IfOk result (AssignsBelow (2 ∷ 3 ∷ 2 ∷ [])) }
{
    let tests = [Test {
        agent: A,
        op: Op::Ge,
        right: Operand::Number(1),
    }];
    let sets = [Set {
        agent: C,
        term: Term::Minus(C, 1),
    }];
    case_of(alloc, &tests, &sets)
}

/// The case `a>=1 : c:=*`.
fn opened(alloc: Global) -> Result<Case, Memory>
    ensures names { IfOk result (NamesOnly (0 ∷ 2 ∷ [])) }
    ensures once { IfOk result AssignsOnce }
    ensures fits { IfOk result (AssignsBelow (2 ∷ 3 ∷ 2 ∷ [])) }
{
    let tests = [Test {
        agent: A,
        op: Op::Ge,
        right: Operand::Number(1),
    }];
    let sets = [Set {
        agent: C,
        term: Term::Any,
    }];
    case_of(alloc, &tests, &sets)
}

/// The maker of tables of three agents, of whom the first and the last are parties.
fn outer_maker(alloc: Global, sizes: &Sizes) -> TableMaker
    requires { sizes.now ≡ 2 ∷ 3 ∷ 2 ∷ [] }
    ensures sizes { result.sizes ≡ 2 ∷ 3 ∷ 2 ∷ [] }
    ensures parties { result.parties ≡ 0 ∷ 2 ∷ [] }
{
    TableMaker::new(alloc, sizes, AgentSet::none().with(A).with(C))
}

/// The table of the first two cases.
fn narrow(alloc: Global, maker: &mut TableMaker) -> Result<Table, TableFault>
    requires sizes { maker.old.sizes ≡ 2 ∷ 3 ∷ 2 ∷ [] }
    requires parties { maker.old.parties ≡ 0 ∷ 2 ∷ [] }
    ensures rows { IfOk result (λ table. length table ≡ 12) }
    ensures same { maker.new ≡ maker.old }
{
    let cases = [started(alloc)?, counted(alloc)?];
    maker.table(alloc, &cases)
}

/// The table of the last two cases.
fn other(alloc: Global, maker: &mut TableMaker) -> Result<Table, TableFault>
    requires sizes { maker.old.sizes ≡ 2 ∷ 3 ∷ 2 ∷ [] }
    requires parties { maker.old.parties ≡ 0 ∷ 2 ∷ [] }
    ensures rows { IfOk result (λ table. length table ≡ 12) }
    ensures same { maker.new ≡ maker.old }
{
    let cases = [opened(alloc)?, started(alloc)?];
    maker.table(alloc, &cases)
}

/// The answer where the second case is missing.
fn unfinished(alloc: Global, maker: &mut TableMaker) -> Result<Table, TableFault>
    requires sizes { maker.old.sizes ≡ 2 ∷ 3 ∷ 2 ∷ [] }
    requires parties { maker.old.parties ≡ 0 ∷ 2 ∷ [] }
    ensures same { maker.new ≡ maker.old }
{
    let cases = [started(alloc)?];
    maker.table(alloc, &cases)
}

/// The table of three agents, of whom the second is the party, of twice the case `:`.
fn kept(alloc: Global, sizes: &Sizes) -> Result<Table, TableFault>
    requires { sizes.now ≡ 2 ∷ 3 ∷ 2 ∷ [] }
    ensures { IfOk result (λ table. length table ≡ 12) }
{
    let cases = [case_of(alloc, &[], &[])?, case_of(alloc, &[], &[])?];
    TableMaker::new(alloc, sizes, AgentSet::none().with(B)).table(alloc, &cases)
}

/// What is related where the first and the last agent are parties, as pairs of values `(a, b, c)` numbered in order.
const NARROW: [(u16, u16); 18] = [
    (0, 6),
    (0, 7),
    (1, 6),
    (1, 7),
    (2, 8),
    (2, 9),
    (3, 8),
    (3, 9),
    (4, 10),
    (4, 11),
    (5, 10),
    (5, 11),
    (6, 6),
    (7, 6),
    (8, 8),
    (9, 8),
    (10, 10),
    (11, 10),
];

/// What is related by the other two cases there.
const OTHER: [(u16, u16); 24] = [
    (0, 6),
    (0, 7),
    (1, 6),
    (1, 7),
    (2, 8),
    (2, 9),
    (3, 8),
    (3, 9),
    (4, 10),
    (4, 11),
    (5, 10),
    (5, 11),
    (6, 6),
    (6, 7),
    (7, 6),
    (7, 7),
    (8, 8),
    (8, 9),
    (9, 8),
    (9, 9),
    (10, 10),
    (10, 11),
    (11, 10),
    (11, 11),
];

/// Tables of fewer parties than agents, which one maker makes one after another.
#[test]
fn fewer_parties(rt: HostRuntime) -> Result<(), Fail> {
    let sizes = Sizes::new(&[2, 3, 2])?;
    let mut maker = outer_maker(rt.alloc(), &sizes);
    let table = narrow(rt.alloc(), &mut maker)?;
    assert!(rt; has(&table, 12, &NARROW));
    assert!(rt; (table.count(4), table.nth(4, 1), table.nth(4, 2)) == (2, Some(11), None));
    assert!(rt; (table.count(9), table.nth(9, 0)) == (1, Some(8)));
    assert!(rt; unfinished(rt.alloc(), &mut maker).err() == Some(TableFault::NotTotal(6)));
    let second = other(rt.alloc(), &mut maker)?;
    assert!(rt; has(&second, 12, &OTHER));
    let again = narrow(rt.alloc(), &mut maker)?;
    assert!(rt; has(&again, 12, &NARROW));
    let same = kept(rt.alloc(), &sizes)?;
    assert!(rt; (0..12).all(|d| (0..12).all(|e| same.related(d, e) == (d == e))));
    Ok(())
}

fn faults(rt: &impl Abort) {
    assert!(rt; Sizes::new(&[65, 0]).err() == Some(SizeFault::ZeroSize(B)));
    assert!(rt; Sizes::new(&[25, 65]).err() == Some(SizeFault::SizeTooLarge(B)));
    assert!(rt; Sizes::new(&[25, 41]).err() == Some(SizeFault::JointTooLarge(B)));
    assert!(rt; Sizes::new(&[64, 16]).is_ok());
}
