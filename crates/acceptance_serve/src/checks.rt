//! What `check` prints of files of the whole language: nothing, or warnings with the notes of their chains.

use crate::serve::served;
use rt_base::{CallList, MemSink};
use rtsan_core::Status;
use std::test::Fail;

/// A file, and what must be printed of it.
#[derive(Clone, Copy)]
struct Checked {
    file: &'static [u8],
    text: &'static [u8],
}

/// Each kind of warning and of note, both levels, and what isn't warned of.
static CHECKED: [Checked; 22] = [
    // a library function that allocates
    Checked {
        file: b"#include <stdlib.h>\nvoid f(void) [[clang::nonblocking]] {\n  malloc(1);\n}\nint main(void) {\n  f();\n  return 0;\n}\n",
        text: b"a.c:3:3: warning: function with 'nonblocking' attribute must not call non-'nonblocking' function 'malloc' [-Wfunction-effects]\n",
    },
    // a chain of two notes
    Checked {
        file: b"#include <stdio.h>\nvoid say(void) { puts(\"x\"); }\nvoid mid(void) { say(); }\nvoid f(void) [[clang::nonblocking]] { mid(); }\n",
        text: b"a.c:4:39: warning: function with 'nonblocking' attribute must not call non-'nonblocking' function 'mid' [-Wfunction-effects]\na.c:3:18: note: function 'mid' cannot be inferred 'nonblocking' because it calls non-'nonblocking' function 'say'\na.c:2:18: note: function 'say' cannot be inferred 'nonblocking' because it calls non-'nonblocking' function 'puts'\n",
    },
    // a cycle alone
    Checked {
        file: b"void b(int n);\nvoid a(int n) { if (n) b(n - 1); }\nvoid b(int n) { if (n) a(n - 1); }\nvoid f(void) [[clang::nonblocking]] { a(3); }\n",
        text: b"",
    },
    // the shortest chain, out of a cycle
    Checked {
        file: b"#include <stdlib.h>\nvoid b(int n);\nvoid c(void) { free(NULL); }\nvoid a(int n) { b(n); c(); }\nvoid b(int n) { a(n); c(); }\nvoid f(void) [[clang::nonblocking]] { a(3); }\n",
        text: b"a.c:6:39: warning: function with 'nonblocking' attribute must not call non-'nonblocking' function 'a' [-Wfunction-effects]\na.c:4:23: note: function 'a' cannot be inferred 'nonblocking' because it calls non-'nonblocking' function 'c'\na.c:3:16: note: function 'c' cannot be inferred 'nonblocking' because it calls non-'nonblocking' function 'free'\n",
    },
    // conversions by a result, an assignment, an argument and a cast
    Checked {
        file: b"typedef void (*nb)(void) [[clang::nonblocking]];\nvoid h(void) { }\nvoid take(nb p) { }\nnb give(void) { return h; }\nvoid g(void) {\n  nb p = NULL;\n  p = h;\n  take(h);\n  p = (nb)h;\n}\n",
        text: b"a.c:4:24: warning: attribute 'nonblocking' should not be added via type conversion [-Wfunction-effects]\na.c:7:7: warning: attribute 'nonblocking' should not be added via type conversion [-Wfunction-effects]\na.c:8:8: warning: attribute 'nonblocking' should not be added via type conversion [-Wfunction-effects]\na.c:9:11: warning: attribute 'nonblocking' should not be added via type conversion [-Wfunction-effects]\n",
    },
    // a conversion to the higher level alone
    Checked {
        file: b"typedef void (*na)(void) [[clang::nonallocating]];\ntypedef void (*nb)(void) [[clang::nonblocking]];\nvoid g(na a, nb b) {\n  na x = b;\n  nb y = a;\n}\n",
        text: b"a.c:5:10: warning: attribute 'nonblocking' should not be added via type conversion [-Wfunction-effects]\n",
    },
    // a callee that never returns
    Checked {
        file: b"#include <stdio.h>\n#include <stdlib.h>\n_Noreturn void die(void) { puts(\"bad\"); exit(1); }\nvoid f(void) [[clang::nonblocking]] { die(); }\nint main(void) { f(); return 0; }\n",
        text: b"",
    },
    // static and thread-local variables
    Checked {
        file: b"_Thread_local int t;\nvoid f(void) [[clang::nonblocking]] { static int n; t = 1; }\nvoid g(void) [[clang::nonallocating]] { static int n; t = 1; }\n",
        text: b"a.c:2:50: warning: function with 'nonblocking' attribute must not have static local variables [-Wfunction-effects]\na.c:2:53: warning: function with 'nonblocking' attribute must not use thread-local variables [-Wfunction-effects]\na.c:3:55: warning: function with 'nonallocating' attribute must not use thread-local variables [-Wfunction-effects]\n",
    },
    // code that is never reached
    Checked {
        file: b"#include <stdlib.h>\nvoid f(void) [[clang::nonblocking]] { if (0) malloc(1); }\nint main(void) { f(); return 0; }\n",
        text: b"a.c:2:46: warning: function with 'nonblocking' attribute must not call non-'nonblocking' function 'malloc' [-Wfunction-effects]\n",
    },
    // a redeclaration with a lower level
    Checked {
        file: b"void f(void);\nvoid f(void) [[clang::nonblocking]];\nvoid f(void) { }\n",
        text: b"a.c:3:6: warning: attribute 'nonblocking' on function does not match previous declaration [-Wfunction-effects]\n",
    },
    // a call through a pointer of the level
    Checked {
        file: b"typedef void (*nb)(void) [[clang::nonblocking]];\ntypedef void (*pl)(void);\nvoid h(void) { }\nvoid f(nb *r) [[clang::nonblocking]] { (*r)(); }\nint main(void) {\n  pl p = h;\n  void *v = &p;\n  f(v);\n  return 0;\n}\n",
        text: b"",
    },
    // one callee for two effects
    Checked {
        file: b"#include <stdlib.h>\nvoid g(void) { static int n; malloc(1); }\nvoid f(void) [[clang::nonblocking]] { g(); }\nvoid h(void) [[clang::nonallocating]] { g(); }\n",
        text: b"a.c:3:39: warning: function with 'nonblocking' attribute must not call non-'nonblocking' function 'g' [-Wfunction-effects]\na.c:2:27: note: function 'g' cannot be inferred 'nonblocking' because it has a static local variable\na.c:4:41: warning: function with 'nonallocating' attribute must not call non-'nonallocating' function 'g' [-Wfunction-effects]\na.c:2:30: note: function 'g' cannot be inferred 'nonallocating' because it calls non-'nonallocating' function 'malloc'\n",
    },
    // of two chains of one length the one whose place comes first
    Checked {
        file: b"void slow(void);\nvoid b(void);\nvoid c(void) { slow(); }\nvoid a(void) { b(); c(); }\nvoid b(void) { slow(); }\nvoid f(void) [[clang::nonblocking]] { a(); }\n",
        text: b"a.c:6:39: warning: function with 'nonblocking' attribute must not call non-'nonblocking' function 'a' [-Wfunction-effects]\na.c:4:16: note: function 'a' cannot be inferred 'nonblocking' because it calls non-'nonblocking' function 'b'\na.c:5:16: note: function 'b' cannot be inferred 'nonblocking' because it calls non-'nonblocking' function 'slow'\n",
    },
    // the first violation of the last function
    Checked {
        file: b"#include <stdlib.h>\nvoid a(void) { free(NULL); malloc(1); }\nvoid f(void) [[clang::nonallocating]] { a(); }\n",
        text: b"a.c:3:41: warning: function with 'nonallocating' attribute must not call non-'nonallocating' function 'a' [-Wfunction-effects]\na.c:2:16: note: function 'a' cannot be inferred 'nonallocating' because it calls non-'nonallocating' function 'free'\n",
    },
    // operands of `sizeof`
    Checked {
        file: b"_Thread_local int t;\nint slow(void);\nint f(void) [[clang::nonblocking]] { return sizeof(slow()) + sizeof t; }\n",
        text: b"",
    },
    // a level that a later declaration gives
    Checked {
        file: b"void f(void);\nvoid g(void) [[clang::nonblocking]] { f(); }\nvoid f(void) [[clang::nonblocking]];\n",
        text: b"",
    },
    // the other spelling of attributes
    Checked {
        file: b"void slow(void);\nvoid f(void) __attribute__((nonblocking)) { slow(); }\n__attribute__((nonallocating)) void g(void) { slow(); }\n",
        text: b"a.c:2:45: warning: function with 'nonblocking' attribute must not call non-'nonblocking' function 'slow' [-Wfunction-effects]\na.c:3:47: warning: function with 'nonallocating' attribute must not call non-'nonallocating' function 'slow' [-Wfunction-effects]\n",
    },
    // what forbids that the level is inferred
    Checked {
        file: b"void a(void) [[clang::blocking]] { }\nvoid b(void) [[clang::allocating]] { }\nvoid f(void) [[clang::nonallocating]] { a(); b(); }\n",
        text: b"a.c:3:46: warning: function with 'nonallocating' attribute must not call non-'nonallocating' function 'b' [-Wfunction-effects]\n",
    },
    // a call through a pointer
    Checked {
        file: b"void g(void (*p)(void)) { p(); }\nvoid f(void (*p)(void)) [[clang::nonblocking]] { g(p); p(); }\n",
        text: b"a.c:2:50: warning: function with 'nonblocking' attribute must not call non-'nonblocking' function 'g' [-Wfunction-effects]\na.c:1:27: note: function 'g' cannot be inferred 'nonblocking' because it calls non-'nonblocking' expression\na.c:2:56: warning: function with 'nonblocking' attribute must not call non-'nonblocking' expression [-Wfunction-effects]\n",
    },
    // a thread-local variable of a callee
    Checked {
        file: b"_Thread_local int t;\nvoid g(void) { t = 1; }\nvoid f(void) [[clang::nonallocating]] { g(); }\n",
        text: b"a.c:3:41: warning: function with 'nonallocating' attribute must not call non-'nonallocating' function 'g' [-Wfunction-effects]\na.c:2:16: note: function 'g' cannot be inferred 'nonallocating' because it uses a thread-local variable\n",
    },
    // a violation before the conversion of the same expression
    Checked {
        file: b"typedef void (*nb)(void) [[clang::nonblocking]];\nvoid (*give(void))(void);\nvoid g(void) [[clang::nonblocking]] { nb p = give(); p(); }\n",
        text: b"a.c:3:46: warning: function with 'nonblocking' attribute must not call non-'nonblocking' function 'give' [-Wfunction-effects]\na.c:3:46: warning: attribute 'nonblocking' should not be added via type conversion [-Wfunction-effects]\n",
    },
    // the inner call before the outer one
    Checked {
        file: b"typedef void (*pl)(void);\npl give(void);\nvoid f(void) [[clang::nonblocking]] { give()(); }\n",
        text: b"a.c:3:39: warning: function with 'nonblocking' attribute must not call non-'nonblocking' function 'give' [-Wfunction-effects]\na.c:3:39: warning: function with 'nonblocking' attribute must not call non-'nonblocking' expression [-Wfunction-effects]\n",
    },
];

#[test]
fn each_file_has_its_warnings(rt: HostRuntime) -> Result<(), Fail> {
    for row in &CHECKED {
        let mut out = MemSink::new(rt.alloc(), 1000, 1000, CallList::new(rt.alloc()))?;
        let outcome = served(rt, rt.alloc(), &["check", "a.c"], row.file, &mut out)?;
        let status = if row.text.is_empty() {
            Status::Clean
        } else {
            Status::Warned
        };
        assert_eq!(rt; out.bytes(), row.text);
        assert_eq!(rt; outcome.status, status);
    }
    Ok(())
}
