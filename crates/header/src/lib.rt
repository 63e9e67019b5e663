// The metadata of a catalog, its header: where the charset label and the plural rule lie in it, and its count of forms.
// A port of metadata.rs: `parse_metadata`, `charset`, `plural_forms`. The map of fields is the places of the two values wanted.
#![tactic(auto)]

ghost use Rattle.std.specs.Prelude.{◌≡◌, ◌≤◌, length};
ghost use Rattle.header_fields.specs.Promise.{end_of};
ghost use Rattle.header.specs.Header.{within, charset, plural, metadata, utf8_label};

use text::Stretch;
use text_trim::Set;

// Where the charset label and the plural rule lie in a header, and its count of forms.
#[derive(Clone, Copy)]
pub struct Metadata {
    pub charset: Option<Stretch>,
    pub rule: Option<Stretch>,
    pub forms: Option<u64>,
}

// The label in a Content-Type: between the first "charset=" and the second, or the end.
#[tactic(auto, using(crate::proofs::Labels::charset_cases))]
fn charset_in(v: &[u8]) -> Option<Stretch>
    ensures { result ≡ charset v.now }
{
    let start = text::find(v, b"charset=")? + 8;
    let rest = &v[start..];
    let len = text::find(rest, b"charset=").unwrap_or(rest.len());
    Some(Stretch { start, len })
}

// The rule in a Plural-Forms.
#[tactic(auto, unfolding(crate::specs::Header::plural))]
fn plural_in(v: &[u8]) -> Option<Stretch>
    ensures { result ≡ plural v.now }
{
    header_fields::last_of(v, b';', b'=', b"plural", Set::Six)
}

// The label in the Content-Type whose value lies at a place of the header.
fn charset_at(h: &[u8], p: Option<Stretch>) -> Option<Stretch>
    requires { end_of p ≤ length h.now }
    ensures { result ≡ within h.now p charset }
{
    let p = p?;
    let end = p.start + p.len;
    header_fields::moved(p.start, charset_in(&h[p.start..end]))
}

// The rule in the Plural-Forms whose value lies there.
fn plural_at(h: &[u8], p: Option<Stretch>) -> Option<Stretch>
    requires { end_of p ≤ length h.now }
    ensures { result ≡ within h.now p plural }
{
    let p = p?;
    let end = p.start + p.len;
    header_fields::moved(p.start, plural_in(&h[p.start..end]))
}

// What a header says, or none where a line is no field.
pub fn parse_metadata(h: &[u8]) -> Option<Metadata>
    ensures { result ≡ metadata h.now }
{
    if !header_fields::lines_ok(h) {
        return None;
    }
    let content_type = header_fields::last_of(h, b'\n', b':', b"Content-Type", Set::WhiteSpace);
    let plural_forms = header_fields::last_of(h, b'\n', b':', b"Plural-Forms", Set::WhiteSpace);
    Some(Metadata {
        charset: charset_at(h, content_type),
        rule: plural_at(h, plural_forms),
        forms: header_forms::forms_at(h, plural_forms),
    })
}

// Whether a label is one of UTF-8's.
pub fn is_utf8_label(label: &[u8]) -> bool
    ensures { result ≡ utf8_label label.now }
{
    let name = text_trim::trim(label, Set::Label);
    text::equal_small(name, b"utf-8")
        || text::equal_small(name, b"utf8")
        || text::equal_small(name, b"unicode-1-1-utf-8")
}
