use crate::lexer::{TokenList, tokens};
use liszt_base::{Place, Refused};
use std::alloc::{AllocError, Global};
use std::fmt::Write;

const PROGRAM_TEXT: &str =
    "field Deg : Vertex = 0;\nfor (e <- edges(mesh)) { Deg(head(e)) += 1; Deg(tail(e)) += 1 }\n";

const PROGRAM_TOKENS: &str = concat!(
    "Word(0)@1:1 Name@1:7 Symbol(6)@1:11 Word(11)@1:13 Symbol(22)@1:20 Number(0)@1:22 Symbol(5)@1:23 ",
    "Word(6)@2:1 Symbol(0)@2:5 Name@2:6 Symbol(7)@2:8 Word(22)@2:11 Symbol(0)@2:16 Word(8)@2:17 Symbol(1)@2:21 ",
    "Symbol(1)@2:22 Symbol(2)@2:24 ",
    "Name@2:26 Symbol(0)@2:29 Word(15)@2:30 Symbol(0)@2:34 Name@2:35 Symbol(1)@2:36 Symbol(1)@2:37 ",
    "Symbol(23)@2:39 Number(1)@2:42 Symbol(5)@2:43 ",
    "Name@2:45 Symbol(0)@2:48 Word(16)@2:49 Symbol(0)@2:53 Name@2:54 Symbol(1)@2:55 Symbol(1)@2:56 ",
    "Symbol(23)@2:58 Number(1)@2:61 Symbol(3)@2:63 end@3:1",
);

const ROWS: [(&str, &str); 13] = [
    (PROGRAM_TEXT, PROGRAM_TOKENS),
    ("", "end@1:1"),
    (" \t\r\n", "end@2:1"),
    ("i<-1", "Name@1:1 Symbol(7)@1:2 Number(1)@1:4 end@1:5"),
    (
        "i < -1",
        "Name@1:1 Symbol(12)@1:3 Symbol(17)@1:5 Number(1)@1:6 end@1:7",
    ),
    (
        "x min= y max=z",
        "Name@1:1 MinSet@1:3 Name@1:8 MaxSet@1:10 Name@1:14 end@1:15",
    ),
    ("min = minx", "Word(9)@1:1 Symbol(22)@1:5 Name@1:7 end@1:11"),
    ("a// é <\n/b", "Name@1:1 Symbol(19)@2:1 Name@2:2 end@2:3"),
    (
        "9223372036854775807",
        "Number(9223372036854775807)@1:1 end@1:20",
    ),
    ("a 9223372036854775808 #", "LongNumber@1:3"),
    ("\n a & b", "BadByte@2:4"),
    (
        "aaaaaaaaaaaaaaaaaaaaaaaaaaaaaaaaaaaaaaaaaaaaaaaaaaaaaaaaaaaaaaaa_",
        "LongName@1:1",
    ),
    (
        "edges_ccw ==! 007x_7",
        "Word(25)@1:1 Symbol(8)@1:11 Symbol(21)@1:13 Number(7)@1:15 Name@1:18 end@1:21",
    ),
];

fn write_place(description: &mut String, place: Place) -> Result<(), AllocError> {
    let line = place.line;
    let col = place.col;
    write!(description, "@{line}:{col}")
}

/// The tokens of a text with their places, or its fault.
fn write_tokens(description: &mut String, list: &TokenList) -> Result<(), AllocError> {
    for token in list.as_slice() {
        let kind = token.kind;
        write!(description, "{kind:?}")?;
        write_place(description, token.place)?;
        description.push_str(" ")?;
    }
    description.push_str("end")?;
    write_place(description, list.end())
}

fn description_of(alloc: Global, text: &str) -> Result<String, AllocError> {
    let bytes = text.as_bytes();
    let mut description = String::new(alloc);
    match tokens(alloc, &bytes[..bytes.len().min(1000)]) {
        Ok(list) => write_tokens(&mut description, &list)?,
        Err(Refused::Fault(fault)) => {
            let what = fault.what;
            write!(description, "{what:?}")?;
            write_place(&mut description, fault.place)?;
        }
        Err(Refused::NoMemory) => return Err(AllocError),
    }
    Ok(description)
}

/// Kinds and places of the tokens of some texts, and their faults.
#[test]
fn tokens_of_texts(rt: HostRuntime) -> Result<(), AllocError> {
    for (text, description) in ROWS {
        assert_eq!(rt; description_of(rt.alloc(), text)?.as_str(), description);
    }
    Ok(())
}
