//! What the parser reads and what it refuses, as tables of sources: that the grammar is the one that was meant, and that the
//! call succeeds, is said by no clause.

use c_parse::{ParseRefusal, parse};
use c_text::tokens;
use sqlite_items::Items;
use std::alloc::{AllocError, Global};
use std::test::Fail;

/// What becomes of a source.
#[derive(Clone, Copy)]
enum Answer {
    /// The depth of its tree.
    Read(u32),
    Refused { number: u8, token: u32, place: u32 },
    NoMemory,
    /// It is misspelled, or longer than a test's source is.
    NoTokens,
}

fn answered(alloc: Global, source: &[u8]) -> Answer {
    if source.len() > 100_000 {
        return Answer::NoTokens;
    }
    let Ok(tokens) = tokens(alloc, source) else {
        return Answer::NoTokens;
    };
    match parse(alloc, source, tokens.as_slice()) {
        Ok(tree) => Answer::Read(tree.depth()),
        Err(
            ParseRefusal::Bad {
                number,
                token,
                place,
            },
        ) => Answer::Refused {
            number,
            token,
            place,
        },
        Err(ParseRefusal::NoMemory) => Answer::NoMemory,
    }
}

fn is_read(alloc: Global, source: &[u8]) -> bool {
    matches!(answered(alloc, source), Answer::Read(_))
}

fn is_read_with(alloc: Global, source: &[u8], wanted: u32) -> bool {
    match answered(alloc, source) {
        Answer::Read(depth) => depth == wanted,
        _ => false,
    }
}

fn is_refused(alloc: Global, source: &[u8], wanted: u8, at: u32) -> bool {
    match answered(alloc, source) {
        Answer::Refused { number, place, .. } => number == wanted && place == at,
        _ => false,
    }
}

fn is_refused_at_token(alloc: Global, source: &[u8], wanted: u32) -> bool {
    match answered(alloc, source) {
        Answer::Refused { token, .. } => token == wanted,
        _ => false,
    }
}

/// A program as they are written, with a ring, a callback and a thread.
pub(crate) const AUDIO: &[u8] = b"\
#include <stdio.h>
#include <stdlib.h>
#include <pthread.h>
#include <unistd.h>
#include <sanitizer/rtsan_interface.h>

enum { SIZE = 64, FRAMES = 16 };

typedef struct {
  int samples[SIZE];
  unsigned head;
  unsigned tail;
} ring_t;

typedef int (*callback_t)(ring_t *r, int *out, int n) [[clang::nonblocking]];

static ring_t ring;
static pthread_mutex_t log_lock = PTHREAD_MUTEX_INITIALIZER;

static int ring_pop(ring_t *r, int *v) {
  if (r->head == r->tail) return 0;
  *v = r->samples[r->head % SIZE];
  r->head = r->head + 1;
  return 1;
}

static int ring_push(ring_t *r, int v) {
  if (r->tail - r->head == SIZE) return 0;
  r->samples[r->tail % SIZE] = v;
  r->tail = r->tail + 1;
  return 1;
}

static int clip(int v) { return v > 1000 ? 1000 : v; }

static int process(ring_t *r, int *out, int n) [[clang::nonblocking]] {
  int got = 0;
  for (int i = 0; i < n; i++) {
    int v = 0;
    if (ring_pop(r, &v)) got++;
    out[i] = clip(abs(v) * 3);
  }
  return got;
}

static void *fill(void *arg) {
  ring_t *r = arg;
  for (int i = 0; i < 200; i++)
    if (!ring_push(r, i * 7 - 500)) usleep(10);
  pthread_mutex_lock(&log_lock);
  puts(\"filled\");
  pthread_mutex_unlock(&log_lock);
  return NULL;
}

int main(void) {
  callback_t cb = process;
  int *out = malloc(FRAMES * sizeof(int));
  if (!out) return 1;
  pthread_t t;
  if (pthread_create(&t, NULL, fill, &ring)) return 1;
  for (int i = 0; i < 50; i++) cb(&ring, out, FRAMES);
  pthread_join(t, NULL);
  free(out);
  puts(\"done\");
  return 0;
}
";

/// Sources, and the number and the place of their refusals.
const REFUSED: [(&[u8], u8, u32); 39] = [
    (b"void f(void) [[clang::nonbl", 1, 22),
    (b"void f(void) { unsigned char c; }", 1, 24),
    (b"int int x;", 1, 4),
    (b"struct s t; struct s int x;", 1, 21),
    (b"typedef int T; int T x;", 1, 21),
    (b"static extern int x;", 1, 7),
    (b"typedef static int x;", 1, 8),
    (b"void f(void) { int g(int); }", 1, 20),
    (b"void f(void) { struct s { int x; } t; }", 1, 24),
    (b"void f(struct s { int x; } *p);", 1, 16),
    (b"void f(void) { extern int x; }", 1, 15),
    (b"void f(void) { _Thread_local int x; }", 1, 33),
    (
        b"void f(void) { _Thread_local static int x; break; }",
        1,
        43,
    ),
    (b"void f(void) { continue; }", 1, 15),
    (b"void f(void) { while (1) break; break; }", 1, 32),
    (b"int malloc;", 3, 4),
    (b"void f(int abs) { }", 3, 11),
    (b"enum { exit };", 3, 7),
    (b"void f(void) { switch (1) { } }", 4, 15),
    (b"int f(int x, ...);", 4, 13),
    (b"float x;", 4, 0),
    (b"int x", 1, 5),
    (b"int x = (1 + 2", 1, 14),
    (b"struct { int x; }", 1, 17),
    (b"void f(void) { if (1) ; else ; else ; }", 1, 31),
    (b"void f(void) { int T; T x; }", 1, 24),
    (b"typedef int T; void f(void) { int T; T x; }", 1, 39),
    (b"typedef int T; void f(int T, T x);", 1, 29),
    (b"typedef T;", 1, 8),
    (b"int x int y;", 1, 6),
    (b"int f(void) { return 1 }", 1, 23),
    (b"int x = 1 + y = 2;", 1, 14),
    (b"int x = a ? b : c = 2;", 1, 18),
    (b"int x = (int) y = 2;", 1, 16),
    (b"int x = (int) y++ z;", 1, 18),
    (b"int a[[2]];", 1, 6),
    (b"int f(exit x);", 1, 6),
    (b"void f(void) { x = size_t; }", 3, 19),
    (
        b"typedef int T; void f(void) { for (int T = 0; ; ) { T x; } }",
        1,
        54,
    ),
];

/// Sources that are read.
const READ: [&[u8]; 19] = [
    b"",
    b"int;",
    b"typedef int T; T x; void f(T T);",
    b"typedef int T; typedef int T; T x;",
    b"typedef int T; void f(void) { { int T; T = 1; } T x; }",
    b"typedef int T; int f(T x) { T y = (T) x; return sizeof(T) + sizeof y; }",
    b"typedef int T; struct { T T; } s; void f(T T, int x) { T = x; }",
    b"typedef int T; int g(int (T)); int h(int T);",
    b"int (*f(int x))(int y) { return 0; }",
    b"int a[2][3] = { { 1, 2, 3, }, { 4, 5, 6 } };",
    b"void f(int [], int (*)(void), char *const *p);",
    b"void f(void) [[clang::nonblocking(false), clang::blocking]] __attribute__((noreturn));",
    b"void f(void) { if (1) if (2) ; else ; else ; for (int i = 0; i < 2; i++) continue; do ; while (0); }",
    b"void f(void) { int x = a ? b : c ? d : e; x = y += 2, z; *p++ = -q->r.s[1](2, 3); }",
    b"enum e { A, B = 2, } x;",
    b"inline static _Noreturn void f(void) { exit(1); }",
    b"void f(void) { _Thread_local static int x; x = sizeof(int[2]) + sizeof(x)[0]; }",
    b"typedef int T; void f(void) { for (int T = 0; T < 2; T++) T = 1; T x; }",
    AUDIO,
];

/// Sources, and the index of their refused token, counted from 0.
const REFUSED_TOKENS: [(&[u8], u32); 2] = [(b"int int x;", 1), (b"int x = (1 + 2", 7)];

#[test]
fn sources_are_read_or_refused(rt: HostRuntime) {
    for source in READ {
        assert!(rt; is_read(rt.alloc(), source), "at {source:?}");
    }
    for (source, number, place) in REFUSED {
        assert!(rt;
            is_refused(rt.alloc(), source, number, place),
            "at {source:?}"
        );
    }
    for (source, token) in REFUSED_TOKENS {
        assert!(rt;
            is_refused_at_token(rt.alloc(), source, token),
            "at {source:?}"
        );
    }
}

/// A source with something nested in it: what stands before, the opening text, what stands at the inmost, the closing text, what
/// stands behind; how often it may be nested, and the place of the token that is refused where it is nested once more.
#[derive(Clone, Copy)]
struct Nested {
    before: &'static [u8],
    opening: &'static [u8],
    inmost: &'static [u8],
    closing: &'static [u8],
    behind: &'static [u8],
    times: usize,
    refused: u32,
}

const NESTED: [Nested; 14] = [
    Nested {
        before: b"int x = ",
        opening: b"(",
        inmost: b"1",
        closing: b")",
        behind: b";",
        times: 198,
        refused: 207,
    },
    Nested {
        before: b"void f(void) {",
        opening: b"{",
        inmost: b"",
        closing: b"}",
        behind: b"}",
        times: 198,
        refused: 212,
    },
    Nested {
        before: b"int ",
        opening: b"*",
        inmost: b"x",
        closing: b"",
        behind: b";",
        times: 199,
        refused: 203,
    },
    Nested {
        before: b"int ",
        opening: b"(",
        inmost: b"x",
        closing: b")",
        behind: b";",
        times: 199,
        refused: 203,
    },
    Nested {
        before: b"int x = ",
        opening: b"- ",
        inmost: b"1",
        closing: b"",
        behind: b";",
        times: 198,
        refused: 406,
    },
    Nested {
        before: b"int x = ",
        opening: b"1 ? 1 : ",
        inmost: b"1",
        closing: b"",
        behind: b";",
        times: 198,
        refused: 1594,
    },
    Nested {
        before: b"int x[] = ",
        opening: b"{",
        inmost: b"1",
        closing: b"}",
        behind: b";",
        times: 198,
        refused: 209,
    },
    Nested {
        before: b"int x = ",
        opening: b"(int) ",
        inmost: b"1",
        closing: b"",
        behind: b";",
        times: 198,
        refused: 1202,
    },
    Nested {
        before: b"int x = ",
        opening: b"a = ",
        inmost: b"1",
        closing: b"",
        behind: b";",
        times: 198,
        refused: 802,
    },
    Nested {
        before: b"int x = 1",
        opening: b" + 1",
        inmost: b"",
        closing: b"",
        behind: b";",
        times: 198,
        refused: 802,
    },
    Nested {
        before: b"void f(void) {",
        opening: b"if (1) ",
        inmost: b";",
        closing: b"",
        behind: b"}",
        times: 197,
        refused: 1397,
    },
    // A reserved name that is too deep has the number of its depth.
    Nested {
        before: b"int x = ",
        opening: b"(",
        inmost: b"malloc",
        closing: b")",
        behind: b";",
        times: 198,
        refused: 207,
    },
    Nested {
        before: b"int x = ",
        opening: b"- ",
        inmost: b"sizeof (int)",
        closing: b"",
        behind: b";",
        times: 198,
        refused: 406,
    },
    Nested {
        before: b"int ",
        opening: b"*",
        inmost: b"f(void)",
        closing: b"",
        behind: b";",
        times: 198,
        refused: 204,
    },
];

/// Nests of 200 nodes at a token that goes on in two ways, only one of which is a further node. The token behind it is
/// refused where it belongs to that one.
const TWO_WAYS: [Nested; 2] = [
    Nested {
        before: b"int x = ",
        opening: b"- ",
        inmost: b"sizeof (1)",
        closing: b"",
        behind: b";",
        times: 198,
        refused: 412,
    },
    Nested {
        before: b"int ",
        opening: b"*",
        inmost: b"f(void)[2]",
        closing: b"",
        behind: b";",
        times: 198,
        refused: 210,
    },
];

fn push_all(text: &mut Items<u8>, bytes: &[u8]) -> Result<(), AllocError> {
    for byte in bytes {
        text.push(*byte)?;
    }
    Ok(())
}

/// The source with all that may be nested in it, or with one more.
fn nested_text(alloc: Global, nest: Nested, deeper: bool) -> Result<Items<u8>, AllocError> {
    let mut text = Items::new(alloc);
    push_all(&mut text, nest.before)?;
    for _ in 0..nest.times {
        push_all(&mut text, nest.opening)?;
    }
    if deeper {
        push_all(&mut text, nest.opening)?;
    }
    push_all(&mut text, nest.inmost)?;
    for _ in 0..nest.times {
        push_all(&mut text, nest.closing)?;
    }
    if deeper {
        push_all(&mut text, nest.closing)?;
    }
    push_all(&mut text, nest.behind)?;
    Ok(text)
}

#[test]
fn nesting_of_200_is_read_and_of_201_refused(rt: HostRuntime) -> Result<(), Fail> {
    for nest in NESTED {
        let deepest = nested_text(rt.alloc(), nest, false)?;
        assert!(rt;
            is_read_with(rt.alloc(), deepest.as_slice(), 200),
            "at {:?}",
            nest.opening
        );
        let deeper = nested_text(rt.alloc(), nest, true)?;
        assert!(rt;
            is_refused(rt.alloc(), deeper.as_slice(), 2, nest.refused),
            "at {:?}",
            nest.opening
        );
    }
    for nest in TWO_WAYS {
        let text = nested_text(rt.alloc(), nest, false)?;
        assert!(rt;
            is_refused(rt.alloc(), text.as_slice(), 2, nest.refused),
            "at {:?}",
            nest.opening
        );
    }
    Ok(())
}
