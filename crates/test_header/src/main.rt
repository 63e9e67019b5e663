// The header's answer for a list of headers: where the label and the rule lie, as texts in brackets, - where there is none, 4 where a
// line is no field. Then labels: 1 for those of UTF-8. What it should write was written by the Rust's own metadata.rs and `encoding`.
#![tactic(auto)]

use header::Metadata;
use std::io;
use std::io::Write;
use text::Stretch;

fn part<W: Write>(out: &mut W, h: &[u8], p: Option<Stretch>) -> io::Result<()> {
    let Some(Stretch { start, len }) = p else {
        return write!(out, "-");
    };
    write!(out, "[")?;
    if let Some(bytes) = h.get(start..).and_then(|rest| rest.get(..len)) {
        out.write_all(bytes)?;
    }
    write!(out, "]")
}

fn shows<W: Write>(out: &mut W, h: &[u8]) -> io::Result<()> {
    match header::parse_metadata(h) {
        None => write!(out, "4")?,
        Some(Metadata { charset, rule, .. }) => {
            part(out, h, charset)?;
            write!(out, " ")?;
            part(out, h, rule)?;
        }
    }
    writeln!(out)
}

const HEADERS: [&[u8]; 23] = [
    b"",
    b"\n\n",
    b" ",
    b"\r\n",
    b"x",
    b":",
    b"Content-Type: text/plain; charset=UTF-8\nPlural-Forms: nplurals=2; plural=n != 1;\n",
    b"Content-Type:charset=a charset=b",
    b"content-type:charset=a\nPlural-forms:plural=n",
    b"Content-Type:charset=a\nContent-Type:none",
    b"Plural-Forms:plural=1;plural=2\nPlural-Forms:x",
    b"Plural-Forms:plural=1; plural = n > 1 ;n_plurals=2",
    b"Plural-Forms:plurals=1;a plural=2;=3;plural",
    b"Plural-Forms:plural=",
    b"Plural-Forms\x0b:\x0c plural\t=\r n\x0b",
    b"Content-Type:charset=\x0butf-8\x0b",
    b"Content-Type:Charset=a",
    b"A:b\n\nPlural-Forms:plural=n\nB:c\nno colon",
    b"\xc2\xa0Plural-Forms\xe3\x80\x80:\xe2\x80\xafplural=\xc2\x85n\xe2\x80\xa8;",
    b"Plural-Forms:nplurals=2;\xc2\xa0plural=n",
    b"\xe2\x80\x8bPlural-Forms:plural=n",
    b"Content-Type:charset=utf-8\xe1\x9a\x80",
    b"\xc2\xa0",
];

const LABELS: [&[u8]; 7] = [
    b"utf-8",
    b"UTF8",
    b" Unicode-1-1-UTF-8\r\n",
    b"\x0butf-8",
    b"",
    b"latin1",
    b"utf-88",
];

fn main(rt: HostRuntime) -> io::Result<()> {
    let out = &mut io::writer(&rt);
    for header in HEADERS {
        shows(out, header)?;
    }
    for label in LABELS {
        write!(out, "{}", u32::from(header::is_utf8_label(label)))?;
    }
    writeln!(out)
}
