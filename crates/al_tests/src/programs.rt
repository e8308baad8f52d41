//! The typed trees of small programs, with their sources.
use crate::trees::{Build, Expr, Program, Stmt};
use al_core::{Addr, Kind, Red};
use al_source::{BinOp, CommitOrder, Policy, RedOp};

const NUMBER: (u32, Option<Kind>) = (1, Some(Kind::Int));

const POINTER: (u32, Option<Kind>) = (1, Some(Kind::Ptr));

/// ```c
/// int main(void) { printf("%ld\n", 2 + 3); }
/// ```
pub fn p1(b: Build) -> Program {
    let sum = b.binary(BinOp::Add, b.number(2), b.number(3));
    b.program(&[], b.no_notes(), b.main(1, &[], [b.print(1, [sum], "\n")]))
}

/// `-9223372036854775807 - 1`
fn least(b: Build) -> Expr {
    b.binary(
        BinOp::Sub,
        b.minus(b.number(9223372036854775807)),
        b.number(1),
    )
}

/// `printf("%ld %ld %ld %ld\n", m / -1, m % -1, 1 << 64, -1 >> 1);`
fn p2_prints(b: Build) -> Stmt {
    let quotient = b.binary(BinOp::Div, b.local(0), b.minus(b.number(1)));
    let rest = b.binary(BinOp::Rem, b.local(0), b.minus(b.number(1)));
    let left = b.binary(BinOp::Shl, b.number(1), b.number(64));
    let right = b.binary(BinOp::Shr, b.minus(b.number(1)), b.number(1));
    b.print(3, [quotient, rest, left, right], "\n")
}

/// ```c
/// int main(void) {
///   long m = -9223372036854775807 - 1;
///   printf("%ld %ld %ld %ld\n", m / -1, m % -1, 1 << 64, -1 >> 1);
/// }
/// ```
pub fn p2(b: Build) -> Program {
    let body = [b.set(2, 0, least(b)), p2_prints(b)];
    b.program(&[], b.no_notes(), b.main(1, &[Kind::Int], body))
}

/// `for (long i = 5; i < 5; i++) { s *= 2; printf("x"); }`
fn p3_loop(b: Build) -> Stmt {
    let body = b.block(4, [b.update(4, BinOp::Mul, 0, b.number(2)), b.say(4, "x")]);
    b.count(4, 1, (5, b.number(5)), body, Some(0))
}

/// ```c
/// int main(void) {
///   long s = 7;
/// #pragma alter RAW OutOfOrder reduce(*: s)
///   for (long i = 5; i < 5; i++) { s *= 2; printf("x"); }
///   printf("%ld\n", s);
///   return 0;
/// }
/// ```
pub fn p3(b: Build) -> Program {
    let red = Red {
        op: RedOp::Mul,
        at: Addr::Local(0),
    };
    let note = b.note(4, (Policy::Raw, CommitOrder::OutOfOrder), (2, 2), &[red]);
    let body = [
        b.set(2, 0, b.number(7)),
        p3_loop(b),
        b.print(5, [b.local(0)], "\n"),
        b.return_zero(6),
    ];
    b.program(&[], note, b.main(1, &[Kind::Int, Kind::Int], body))
}

/// `x = y + 1`, where the globals have these numbers.
fn one_more(b: Build, x: u32, y: u32) -> Stmt {
    let sum = b.binary(BinOp::Add, b.load(b.global(y)), b.number(1));
    b.store(6, b.global(x), sum)
}

/// `for (i = 0; i < 2; i++) { if (i == 0) x = y + 1; else y = x + 1; }`
fn p4_loop(b: Build) -> Stmt {
    let choice = b.if_else(6, b.is(0, 0), one_more(b, 0, 1), one_more(b, 1, 0));
    b.count(5, 0, (0, b.number(2)), b.block(5, [choice]), Some(0))
}

/// ```c
/// long x, y;
/// int main(void) {
///   long i;
/// #pragma alter RAW InOrder
///   for (i = 0; i < 2; i++) {
///     if (i == 0) x = y + 1; else y = x + 1;
///   }
///   printf("%ld %ld\n", x, y);
///   return 0;
/// }
/// ```
pub fn p4(b: Build, policy: Policy) -> Program {
    let note = b.note(5, (policy, CommitOrder::InOrder), (1, 1), &[]);
    let prints = b.print(8, [b.load(b.global(0)), b.load(b.global(1))], "\n");
    let body = [
        b.set(3, 0, b.number(0)),
        p4_loop(b),
        prints,
        b.return_zero(9),
    ];
    b.program(&[NUMBER, NUMBER], note, b.main(2, &[Kind::Int], body))
}

/// `for (i = 0; i < 3; i++) { if (i == 0) x = 1; if (i == 1) y = x; printf("%ld ", i); }`
fn p5_loop(b: Build) -> Stmt {
    let writes = b.if_only(6, b.is(0, 0), b.store(6, b.global(0), b.number(1)));
    let copies = b.if_only(7, b.is(0, 1), b.store(7, b.global(1), b.load(b.global(0))));
    let body = b.block(5, [writes, copies, b.print(8, [b.local(0)], " ")]);
    b.count(5, 0, (0, b.number(3)), body, Some(0))
}

/// ```c
/// long x, y;
/// int main(void) {
///   long i;
/// #pragma alter RAW OutOfOrder
///   for (i = 0; i < 3; i++) {
///     if (i == 0) x = 1;
///     if (i == 1) y = x;
///     printf("%ld ", i);
///   }
///   return 0;
/// }
/// ```
pub fn p5(b: Build, order: CommitOrder) -> Program {
    let note = b.note(5, (Policy::Raw, order), (1, 1), &[]);
    let body = [b.set(3, 0, b.number(0)), p5_loop(b), b.return_zero(10)];
    b.program(&[NUMBER, NUMBER], note, b.main(2, &[Kind::Int], body))
}

/// `for (long i = 0; i < 2; i++) { if (i == 0) d = 1; else .. }`
fn first_sets(b: Build, other: Stmt) -> Stmt {
    let sets = b.store(5, b.global(0), b.number(1));
    let body = b.block(4, [b.if_else(5, b.is(0, 0), sets, other)]);
    b.count(4, 0, (0, b.number(2)), body, Some(0))
}

/// ```c
/// long d;
/// int main(void) {
/// #pragma alter RAW InOrder
///   for (long i = 0; i < 2; i++) {
///     if (i == 0) d = 1;
///     else printf("%ld\n", 10 / d);
///   }
/// }
/// ```
pub fn p6(b: Build, policy: Policy) -> Program {
    let note = b.note(4, (policy, CommitOrder::InOrder), (1, 1), &[]);
    let quotient = b.binary(BinOp::Div, b.number(10), b.load(b.global(0)));
    let body = [first_sets(b, b.print(6, [quotient], "\n"))];
    b.program(&[NUMBER], note, b.main(2, &[Kind::Int], body))
}

/// ```c
/// long d;
/// int main(void) {
/// #pragma alter RAW InOrder
///   for (long i = 0; i < 2; i++) {
///     if (i == 0) d = 1;
///     else while (d == 0) ;
///   }
///   printf("ok\n");
/// }
/// ```
pub fn p7(b: Build, policy: Policy) -> Program {
    let note = b.note(4, (policy, CommitOrder::InOrder), (1, 1), &[]);
    let is_zero = b.binary(BinOp::Eq, b.load(b.global(0)), b.number(0));
    let waits = b.while_loop(6, is_zero, b.empty(6));
    let body = [first_sets(b, waits), b.say(8, "ok\n")];
    b.program(&[NUMBER], note, b.main(2, &[Kind::Int], body))
}

/// ```c
/// int main(void) {
/// #pragma alter RAW InOrder
///   for (long i = 0; i < 2; i++)
///     for (long j = 0; j < 20; j++) ;
///   printf("ok\n");
/// }
/// ```
pub fn p8(b: Build) -> Program {
    let note = b.note(3, (Policy::Raw, CommitOrder::InOrder), (1, 2), &[]);
    let inner = b.count(4, 1, (0, b.number(20)), b.empty(4), None);
    let outer = b.count(3, 0, (0, b.number(2)), inner, Some(0));
    let body = [outer, b.say(5, "ok\n")];
    b.program(&[], note, b.main(1, &[Kind::Int, Kind::Int], body))
}

/// `for (long i = 0; i < 4; i++) s += input(i);`
fn p9_loop(b: Build) -> Stmt {
    let body = b.update(4, BinOp::Add, 0, b.input(b.local(1)));
    b.count(4, 1, (0, b.number(4)), body, Some(0))
}

/// ```c
/// int main(void) {
///   long s = 7;
/// #pragma alter NONE OutOfOrder reduce(+: s)
///   for (long i = 0; i < 4; i++) s += input(i);
///   printf("%ld\n", s);
/// }
/// ```
pub fn p9(b: Build) -> Program {
    let red = Red {
        op: RedOp::Add,
        at: Addr::Local(0),
    };
    let note = b.note(4, (Policy::None, CommitOrder::OutOfOrder), (2, 2), &[red]);
    let body = [
        b.set(2, 0, b.number(7)),
        p9_loop(b),
        b.print(5, [b.local(0)], "\n"),
    ];
    b.program(&[], note, b.main(1, &[Kind::Int, Kind::Int], body))
}

/// The loop of `p10` that puts nodes before the list.
fn p10_puts(b: Build) -> Stmt {
    let body = b.block(
        5,
        [
            b.set(6, 1, b.calloc(b.number(1), 2)),
            b.store(7, b.field(1, 0), b.local(0)),
            b.store(8, b.field(1, 1), b.load_pointer(b.global(0))),
            b.store(9, b.global(0), b.local(1)),
        ],
    );
    b.count(5, 0, (0, b.number(6)), body, Some(0))
}

/// `for (struct node *q = head; q != NULL; q = q->next) printf("%ld ", q->v);`
fn p10_walks(b: Build) -> Stmt {
    let first = b.set(11, 2, b.load_pointer(b.global(0)));
    let third = b.set(11, 2, b.load_pointer(b.field(2, 1)));
    let prints = b.print(11, [b.load(b.field(2, 0))], " ");
    b.for_loop(11, (first, b.is_not_null(b.local(2)), third), prints, None)
}

/// ```c
/// struct node { long v; struct node *next; };
/// struct node *head;
/// int main(void) {
/// #pragma alter RAW InOrder
///   for (long i = 0; i < 6; i++) {
///     struct node *p = calloc(1, sizeof(struct node));
///     p->v = i;
///     p->next = head;
///     head = p;
///   }
///   for (struct node *q = head; q != NULL; q = q->next) printf("%ld ", q->v);
///   return 0;
/// }
/// ```
pub fn p10(b: Build) -> Program {
    let note = b.note(5, (Policy::Raw, CommitOrder::InOrder), (1, 2), &[]);
    let body = [p10_puts(b), p10_walks(b), b.return_zero(12)];
    let main = b.main(3, &[Kind::Int, Kind::Ptr, Kind::Ptr], body);
    b.program(&[POINTER], note, main)
}

/// ```c
/// struct box { long a[2]; struct box *p; };
/// struct box g;
/// int main(void) {
///   long *q = &g.a[0];
///   g.p = &g;
///   printf("%ld\n", q[2]);
/// }
/// ```
pub fn p11(b: Build) -> Program {
    let first = b.element(b.plus(b.global(0), 0), b.number(0));
    let last = b.element(b.at(0), b.number(2));
    let body = [
        b.set(4, 0, b.address(first)),
        b.store(5, b.plus(b.global(0), 2), b.address(b.global(0))),
        b.print(6, [b.load(last)], "\n"),
    ];
    b.program(&[(3, None)], b.no_notes(), b.main(3, &[Kind::Ptr], body))
}

/// ```c
/// int main(void) {
///   long n = 16777217;
///   printf("go ");
/// #pragma alter NONE InOrder
///   for (long i = 0; i < n; i++) ;
/// }
/// ```
pub fn p12(b: Build) -> Program {
    let note = b.note(5, (Policy::None, CommitOrder::InOrder), (2, 2), &[]);
    let body = [
        b.set(2, 0, b.number(16777217)),
        b.say(3, "go "),
        b.count(5, 1, (0, b.local(0)), b.empty(5), Some(0)),
    ];
    b.program(&[], note, b.main(1, &[Kind::Int, Kind::Int], body))
}

/// `for (long i = 0; i < 5; i++) { printf("%ld ", i); p[i] = i; }`
fn p13_loop(b: Build) -> Stmt {
    let stores = b.store(7, b.element(b.at(0), b.local(1)), b.local(1));
    let body = b.block(5, [b.print(6, [b.local(1)], " "), stores]);
    b.count(5, 1, (0, b.number(5)), body, Some(0))
}

/// ```c
/// long a[3];
/// int main(void) {
///   long *p = a;
/// #pragma alter RAW InOrder
///   for (long i = 0; i < 5; i++) {
///     printf("%ld ", i);
///     p[i] = i;
///   }
/// }
/// ```
pub fn p13(b: Build) -> Program {
    let note = b.note(5, (Policy::Raw, CommitOrder::InOrder), (2, 2), &[]);
    let body = [b.set(3, 0, b.address(b.global(0))), p13_loop(b)];
    b.program(&[(3, None)], note, b.main(2, &[Kind::Ptr, Kind::Int], body))
}

/// `if (i == 0) { free(g); g = NULL; } else if (g != NULL) g->v = 5;`
fn p14_choice(b: Build) -> Stmt {
    let frees = b.call(7, b.free(b.load_pointer(b.global(0))));
    let forgets = b.store(7, b.global(0), b.number(0));
    let sets = b.store(8, b.target(b.load_pointer(b.global(0))), b.number(5));
    let other = b.if_only(8, b.is_not_null(b.load_pointer(b.global(0))), sets);
    b.if_else(7, b.is(0, 0), b.block(7, [frees, forgets]), other)
}

/// ```c
/// struct n { long v; };
/// struct n *g;
/// int main(void) {
///   g = calloc(1, sizeof(struct n));
/// #pragma alter RAW InOrder
///   for (long i = 0; i < 2; i++) {
///     if (i == 0) { free(g); g = NULL; }
///     else if (g != NULL) g->v = 5;
///   }
///   printf("%ld\n", g == NULL);
/// }
/// ```
pub fn p14(b: Build, policy: Policy) -> Program {
    let note = b.note(6, (policy, CommitOrder::InOrder), (1, 1), &[]);
    let body = [
        b.store(4, b.global(0), b.calloc(b.number(1), 1)),
        b.count(6, 0, (0, b.number(2)), b.block(6, [p14_choice(b)]), Some(0)),
        b.print(10, [b.is_null(b.load_pointer(b.global(0)))], "\n"),
    ];
    b.program(&[POINTER], note, b.main(3, &[Kind::Int], body))
}

/// `for (long i = 0; i < 4; i++) a[i] += 1;`
fn p15_loop(b: Build) -> Stmt {
    let place = b.element(b.global(0), b.local(0));
    let body = b.update_at(4, BinOp::Add, place, b.number(1));
    b.count(4, 0, (0, b.number(4)), body, Some(0))
}

/// ```c
/// long a[4];
/// int main(void) {
/// #pragma alter RAW InOrder
///   for (long i = 0; i < 4; i++) a[i] += 1;
///   printf("%ld %ld\n", a[0], a[3]);
/// }
/// ```
pub fn p15(b: Build) -> Program {
    let note = b.note(4, (Policy::Raw, CommitOrder::InOrder), (1, 1), &[]);
    let first = b.load(b.element(b.global(0), b.number(0)));
    let last = b.load(b.element(b.global(0), b.number(3)));
    let body = [p15_loop(b), b.print(5, [first, last], "\n")];
    b.program(&[(4, None)], note, b.main(2, &[Kind::Int], body))
}
