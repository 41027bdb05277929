//! The canonical text of programs.

use liszt_base::{ByteList, ProgramFault, Refused};
use liszt_lexer::tokens;
use liszt_parser::parse;
use liszt_tree::print_tree;
use std::alloc::Global;
use std::test::Fail;

/// Programs and their canonical text.
const PROGRAMS: [(&str, &str); 16] = [
    (
        "field Deg:Vertex=0;for(e<-edges(mesh)){Deg(head(e))+=1;Deg(tail(e))+=1}",
        "field Deg : Vertex = 0;\nfor (e <- edges(mesh)) {\n  Deg(head(e)) += 1;\n  Deg(tail(e)) += 1;\n}\n",
    ),
    ("", ""),
    ("if(a){}", "if (a) {\n}\n"),
    ("if(a){}else{} // no more", "if (a) {\n} else {\n}\n"),
    (
        "while(a<b){x=1;if(c){y=2}else{print 3}}",
        "while (a < b) {\n  x = 1;\n  if (c) {\n    y = 2;\n  } else {\n    print 3;\n  }\n}\n",
    ),
    ("x=((a))+(b*c)+((d))-(-e)", "x = a + b * c + d - -e;\n"),
    (
        "x=(a+b)*c-(d-e);y=(a+b)+c;z=a*(b/c)",
        "x = (a + b) * c - (d - e);\ny = (a + b) + c;\nz = a * (b / c);\n",
    ),
    (
        "x=(a==b)==(c<d);y=(a+b)==(c*d);z=a<=(b!=c)",
        "x = (a == b) == (c < d);\ny = a + b == c * d;\nz = a <= (b != c);\n",
    ),
    (
        "x=(a||b)&&(c&&d)||(e==f);y=(a||b)||(c&&d)",
        "x = (a || b) && (c && d) || e == f;\ny = (a || b) || c && d;\n",
    ),
    (
        "x=- -a*-(b)+!(-c)- -(d*e)+(-f);y=!(a&&b);z=-(a(b))",
        "x = --a * -b + !-c - -(d * e) + -f;\ny = !(a && b);\nz = -a(b);\n",
    ),
    (
        "x min=1;y max= 2;z&=3;z|=4;z^=5;z*=6;z-=7;z+=8;z=9",
        "x min= 1;\ny max= 2;\nz &= 3;\nz |= 4;\nz ^= 5;\nz *= 6;\nz -= 7;\nz += 8;\nz = 9;\n",
    ),
    (
        "print 007;print 00;print 9223372036854775807",
        "print 7;\nprint 0;\nprint 9223372036854775807;\n",
    ),
    (
        "x=a||b||c;x=a&&b&&c;x=a+b-c;x=a*b/c%d",
        "x = a || b || c;\nx = a && b && c;\nx = a + b - c;\nx = a * b / c % d;\n",
    ),
    (
        "x=a==b;x=a!=b;x=a<b;x=a<=b;x=a>b;x=a>=b",
        "x = a == b;\nx = a != b;\nx = a < b;\nx = a <= b;\nx = a > b;\nx = a >= b;\n",
    ),
    (
        "while(a){var n=1;field A:Face=(2);for(f<-faces(mesh)){}}",
        "while (a) {\n  var n = 1;\n  field A : Face = 2;\n  for (f <- faces(mesh)) {\n  }\n}\n",
    ),
    (
        "for(c<-cells(mesh)){var n=1;val e=towards(d,head(d));n+=A((e));for(f<-edges_ccw(flip(g))){while(valid(f)){n-=ID(f)}}if(n<1){}else{A(inside(f))max=outside(f)}}",
        "for (c <- cells(mesh)) {\n  var n = 1;\n  val e = towards(d, head(d));\n  n += A(e);\n  for (f <- edges_ccw(flip(g))) {\n    while (valid(f)) {\n      n -= ID(f);\n    }\n  }\n  if (n < 1) {\n  } else {\n    A(inside(f)) max= outside(f);\n  }\n}\n",
    ),
];

/// The canonical text of a program of at most a thousand bytes.
fn printed(alloc: Global, program: &str) -> Result<ByteList, Refused<ProgramFault>> {
    let bytes = program.as_bytes();
    let text = &bytes[..bytes.len().min(1000)];
    let tokens = tokens(alloc, text)?;
    let program = parse(alloc, text, &tokens)?;
    Ok(print_tree(alloc, &program)?)
}

/// A program is printed as its canonical text, and that is printed as itself.
#[test]
fn canonical_texts(rt: HostRuntime) -> Result<(), Fail> {
    let alloc = rt.alloc();
    for (program, canonical) in PROGRAMS {
        let once = printed(alloc, program)?;
        assert_eq!(&rt; once.as_slice(), canonical.as_bytes(), "{program}");
        let twice = printed(alloc, canonical)?;
        assert_eq!(&rt; twice.as_slice(), canonical.as_bytes(), "{program}");
    }
    Ok(())
}
