//! The trees and faults of small sources, worked out by hand from the grammar.

use crate::source::read_tree;
use crate::tree_text::text;
use std::alloc::{AllocError, Global};
use std::test::Fail;

/// The tokens of the source's tree, or its fault.
fn tokens_again(alloc: Global, source: &[u8], with_marks: bool) -> Result<String, AllocError> {
    if source.len() > 65536 {
        return format!(in alloc; "long");
    }
    match read_tree(alloc, source) {
        Ok(tree) => text(alloc, &tree, with_marks),
        Err(fault) => format!(in alloc; "{fault}"),
    }
}

const STATEMENTS: [(&str, &str); 17] = [
    // the statement begins at column 15
    (
        "void f(void){ (a) + b; }",
        "void f ( void ) { ( a @0:16+1 + b @1:21+1 ) @2:15+5 ; @3:15+6 } @4:1+13 ",
    ),
    (
        "void f(void){ a - b - c; }",
        "void f ( void ) { ( ( a @0:15+1 - b @1:19+1 ) @2:15+3 - c @3:23+1 ) @4:15+5 ; @5:15+6 } @6:1+13 ",
    ),
    (
        "void f(void){ a + b * c; }",
        "void f ( void ) { ( a @0:15+1 + ( b @1:19+1 * c @2:23+1 ) @3:19+3 ) @4:15+5 ; @5:15+6 } @6:1+13 ",
    ),
    (
        "void f(void){ (a) = 1; }",
        "void f ( void ) { ( a @0:16+1 = 1 @1:21+1 ) @2:15+5 ; @3:15+6 } @4:1+13 ",
    ),
    (
        "void f(void){ a &= b; }",
        "void f ( void ) { ( a @0:15+1 &= b @1:20+1 ) @2:15+3 ; @3:15+4 } @4:1+11 ",
    ),
    (
        "void f(void){ a < b && c || d == e; }",
        "void f ( void ) { ( ( ( a @0:15+1 < b @1:19+1 ) @2:15+3 && c @3:24+1 ) @4:15+5 || ( d @5:29+1 == e \
        @6:34+1 ) @7:29+3 ) @8:15+9 ; @9:15+10 } @10:1+17 ",
    ),
    (
        "void f(void){ (int)(a); }",
        "void f ( void ) { ( ( int ) a @0:21+1 ) @1:15+6 ; @2:15+7 } @3:1+14 ",
    ),
    (
        "void f(void){ sizeof(int) * p; }",
        "void f ( void ) { ( sizeof ( int ) @0:15+4 * p @1:29+1 ) @2:15+6 ; @3:15+7 } @4:1+14 ",
    ),
    (
        "void f(void){ a ? b : c ? d : e; }",
        "void f ( void ) { ( a @0:15+1 ? b @1:19+1 : ( c @2:23+1 ? d @3:27+1 : e @4:31+1 ) @5:23+5 ) @6:15+9 \
        ; @7:15+10 } @8:1+17 ",
    ),
    (
        "void f(void){ a = b = c; }",
        "void f ( void ) { ( a @0:15+1 = ( b @1:19+1 = c @2:23+1 ) @3:19+3 ) @4:15+5 ; @5:15+6 } @6:1+13 ",
    ),
    (
        "void f(void){ a, g(b, 1)[c]; }",
        "void f ( void ) { ( a @0:15+1 , g ( b @1:20+1 , 1 @2:23+1 ) @3:18+6 [ c @4:26+1 ] @5:18+9 ) \
        @6:15+11 ; @7:15+12 } @8:1+19 ",
    ),
    (
        "void f(void){ - -a[0]; }",
        "void f ( void ) { ( - ( - a @0:18+1 [ 0 @1:20+1 ] @2:18+4 ) @3:17+5 ) @4:15+6 ; @5:15+7 } @6:1+14 ",
    ),
    (
        "void f(void){ if (a) if (b) ; else ; }",
        "void f ( void ) { if ( a @0:19+1 ) if ( b @1:26+1 ) ; @2:29+1 else ; @3:36+1 @4:22+7 @5:15+11 } \
        @6:1+18 ",
    ),
    (
        "void f(void){ for (int i = 0;;) ; }",
        "void f ( void ) { for ( int i = 0 @0:28+1 ; @1:20+5 ; ) ; @2:33+1 @3:15+10 } @4:1+17 ",
    ),
    // labels are nodes; the switch begins at column 18
    (
        "void main(void){ switch (1) { case 1: ; case 257: ; default: ; } }",
        "void main ( void ) { switch ( 1 @0:26+1 ) { case 1 @1:36+1 : @2:31+3 ; @3:39+1 case 257 @4:46+1 : \
        @5:41+3 ; @6:51+1 default : @7:53+2 ; @8:62+1 } @9:18+17 } @10:1+24 ",
    ),
    // two labels in a row, behind a switch of its own
    (
        "void f(void){ switch (a) { case 1: switch (b) { default: ; } case 2: case 3: } }",
        "void f ( void ) { switch ( a @0:23+1 ) { case 1 @1:33+1 : @2:28+3 switch ( b @3:44+1 ) { default : \
        @4:49+2 ; @5:58+1 } @6:36+9 case 2 @7:67+1 : @8:62+3 case 3 @9:75+1 : @10:70+3 } @11:15+24 } @12:1+31 ",
    ),
    (
        "void f(void){ switch (a) { } }",
        "void f ( void ) { switch ( a @0:23+1 ) { } @1:15+6 } @2:1+13 ",
    ),
];

const FAULTS: [(&str, &str); 32] = [
    ("void f(void){ a + b = c; }", "1:21 G1"),
    ("void f(void){ a ? b : c = d; }", "1:25 G1"),
    ("void f(void){ ++(int)x; }", "1:18 G1"),
    ("void f(void){ sizeof(int)[1]; }", "1:26 G1"),
    ("int f(void), g;", "1:12 G1"),
    ("struct S { int a; } x;", "1:21 G1"),
    ("void f(int *const p[]);", "1:21 G1"),
    ("long long x;", "1:6 G1"),
    ("unsigned char unsigned x;", "1:15 G1"),
    ("void main(void){ } }", "1:20 G1"),
    ("void main(void){ goto x; }", "1:18 G2"),
    ("enum E x;", "1:1 G2"),
    ("int", "1:4 G1"),
    ("void f(void){ x", "1:16 G1"),
    ("void f(void){ f(a,); }", "1:19 G1"),
    ("int a[2] = { 1, 2, };\nint b = { , };", "2:11 G1"),
    ("volatile register unsigned int R30;", "1:32 G1"),
    ("void f(void){ if (a) else ; }", "1:22 G1"),
    ("void f(void){ a &&= b; }", "1:19 G1"),
    // a label stands directly in the braces of a switch, and nothing stands there before the first
    ("void f(void){ case 1: ; }", "1:15 G1"),
    ("void f(void){ default: ; }", "1:15 G1"),
    ("void f(void){ switch (a) { ; case 1: ; } }", "1:28 G1"),
    (
        "void f(void){ switch (a) { case 1: { case 2: ; } } }",
        "1:38 G1",
    ),
    (
        "void f(void){ switch (a) { case 1: if (b) default: ; } }",
        "1:43 G1",
    ),
    (
        "void f(void){ switch (a) { case 1: while (b) case 2: ; } }",
        "1:46 G1",
    ),
    ("void f(void){ switch (a) { case 1: int b; } }", "1:36 G1"),
    ("void f(void){ switch (a) { case: ; } }", "1:32 G1"),
    ("void f(void){ switch (a) { default 1: ; } }", "1:36 G1"),
    ("void f(void){ switch (a) { case 1 ; } }", "1:35 G1"),
    ("void f(void){ switch (a) ; }", "1:26 G1"),
    // two faults: the first is named
    ("void f(void){ a b; goto c; }", "1:17 G1"),
    ("\"a", "1:1 L3"),
];

/// Sources in the layout in which a tree is printed: with every expression of several parts in parentheses, and a space behind
/// each token.
const WHOLE: [&str; 28] = [
    "struct S { int a , * b ; unsigned char c [ 2 ] [ 3 ] ; } ; ",
    "volatile unsigned int v __attribute__ ( ( location ( 65536 ) ) ) , w __attribute__ ( ( location ( ( v + 4 ) ) ) ) ; ",
    "static inline const int f ( const struct S * p , int n [ ] , char * const * volatile q ) ; ",
    "short * g ( void ) ; long h ( ) { } signed char i ; ",
    "int a [ 2 ] = { 1 , { 2 , } , } , b = 3 ; ",
    "void f ( void ) { int i = 0 , j ; ; i ; { struct S s ; } } ",
    "void f ( void ) { if ( i ) ; if ( i ) if ( j ) ; else j ; while ( i ) break ; do continue ; while ( i ) ; } ",
    "void f ( void ) { for ( int k = 0 ; ; ) ; for ( ; ; ) { } for ( i ; j ; k ) l ; } ",
    "void f ( void ) { switch ( i ) { case 1 : case ( 2 + 3 ) : j ; break ; default : { } } switch ( j ) { } } ",
    "void f ( void ) { switch ( i ) { case 1 : switch ( j ) { default : ; } case 2 : if ( k ) ; } } ",
    "void f ( void ) { return ; return i ; __region ( \"a b\" ) { i ; } } ",
    "void f ( void ) { ( a = ( b += ( c << 1 ) ) ) ; } ",
    "void f ( void ) { ( a -= ( b *= ( c /= ( d %= ( e <<= ( g >>= ( h &= ( i ^= ( j |= k ) ) ) ) ) ) ) ) ) ; } ",
    "void f ( void ) { ( ( a , b ) , c ) ; } ",
    "void f ( void ) { ( a ? b : ( c ? d : e ) ) ; } ",
    "void f ( void ) { ( ( a || b ) && ( c | ( d ^ ( e & g ) ) ) ) ; } ",
    "void f ( void ) { ( ( a == b ) != ( c < ( d >= ( e > ( g <= h ) ) ) ) ) ; } ",
    "void f ( void ) { ( ( a >> b ) - ( c * ( d / ( e % g ) ) ) ) ; } ",
    "void f ( void ) { ( - ( + ( ! ( ~ ( * ( & a ) ) ) ) ) ) ; } ",
    "void f ( void ) { ( ++ a ) ; ( -- a ) ; a ++ ; a -- ; } ",
    "void f ( void ) { a [ ( b + 1 ) ] . c -> d [ 0 ] ; } ",
    "void f ( void ) { f ( ) ; f ( a ) ; f ( a , ( b , c ) , d ) ; ( f ) ( a ) ; } ",
    "void f ( void ) { ( sizeof a ) ; sizeof ( unsigned int * const * ) ; } ",
    "void f ( void ) { ( ( signed char ) a ) ; ( ( unsigned short * ) ( ( struct S * ) a ) ) ; } ",
    "void f ( void ) { '\\x41' ; 7 ; } ",
    "unsigned long a ; unsigned short b ; signed int c ; ",
    "void f ( void ) { const unsigned char * volatile p ; } ",
    "",
];

/// A source with two pieces that stand many times.
#[derive(Clone, Copy)]
struct Repeated {
    front: &'static str,
    piece: &'static str,
    times: usize,
    middle: &'static str,
    closer: &'static str,
    closings: usize,
    shown: &'static str,
}

const fn chain(
    front: &'static str,
    piece: &'static str,
    times: usize,
    middle: &'static str,
    shown: &'static str,
) -> Repeated {
    Repeated {
        front,
        piece,
        times,
        middle,
        closer: "",
        closings: 0,
        shown,
    }
}

impl Repeated {
    fn source(&self, alloc: Global) -> Result<String, AllocError> {
        let mut source = String::from_str(alloc, self.front)?;
        for _ in 0..self.times {
            source.push_str(self.piece)?;
        }
        source.push_str(self.middle)?;
        for _ in 0..self.closings {
            source.push_str(self.closer)?;
        }
        Ok(source)
    }
}

fn verdict(alloc: Global, source: &[u8]) -> Result<String, AllocError> {
    if source.len() > 65536 {
        return format!(in alloc; "long");
    }
    match read_tree(alloc, source) {
        Ok(_) => format!(in alloc; "read"),
        Err(fault) => format!(in alloc; "{fault}"),
    }
}

const fn blocks(times: usize, closings: usize, shown: &'static str) -> Repeated {
    Repeated {
        front: "void f(void){",
        piece: "{",
        times,
        middle: "",
        closer: "}",
        closings,
        shown,
    }
}

fn many() -> [Repeated; 14] {
    [
        // the function's own block is no node: the innermost of 255 blocks stands at level 256, of 256 at level 257
        blocks(255, 256, "read"),
        blocks(256, 257, "1:269 G3"),
        // the operands of 253 sums stand at level 256, of 254 at level 257: the first is named
        chain("void f(void){a", "+a", 253, ";}", "read"),
        chain("void f(void){a", "+a", 254, ";}", "1:14 G3"),
        chain("void f(void){a", "+a", 25000, ";}", "1:14 G3"),
        // behind 253 operators the name stands at level 256, behind 254 at level 257
        chain("void f(void){", "-~", 126, "-a;}", "read"),
        chain("void f(void){", "-~", 127, "a;}", "1:268 G3"),
        // the condition of the 254th if stands at level 256, of the 255th at level 257
        chain("void f(void){if(a);", "else if(a);", 253, "}", "read"),
        chain("void f(void){if(a);", "else if(a);", 254, "}", "1:2811 G3"),
        chain("void f(void){", "a;", 30000, "}", "read"),
        chain("void f(void){", "(", 15000, "a;}", "1:15015 G1"),
        chain("void f(void){", "(", 60000, "", "1:60014 G1"),
        chain("void f(void){", "{", 60000, "]", "1:60014 G1"),
        chain("void f(void){", "- ", 30000, "", "1:60014 G1"),
    ]
}

#[test]
fn trees_by_hand(rt: HostRuntime) -> Result<(), Fail> {
    for (source, shown) in &STATEMENTS {
        let got = tokens_again(rt.alloc(), source.as_bytes(), true)?;
        assert_eq!(rt; got.as_str(), *shown);
    }
    Ok(())
}

#[test]
fn printed_again(rt: HostRuntime) -> Result<(), Fail> {
    for source in &WHOLE {
        let got = tokens_again(rt.alloc(), source.as_bytes(), false)?;
        assert_eq!(rt; got.as_str(), *source);
    }
    Ok(())
}

#[test]
fn faults_by_hand(rt: HostRuntime) -> Result<(), Fail> {
    for (source, shown) in &FAULTS {
        let got = verdict(rt.alloc(), source.as_bytes())?;
        assert_eq!(rt; got.as_str(), *shown);
    }
    Ok(())
}

#[test]
fn levels_and_lengths(rt: HostRuntime) -> Result<(), Fail> {
    for row in many() {
        let source = row.source(rt.alloc())?;
        let got = verdict(rt.alloc(), source.as_bytes())?;
        assert_eq!(rt; got.as_str(), row.shown);
    }
    Ok(())
}
