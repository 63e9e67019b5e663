// The count of forms that a Plural-Forms gives. From metadata.rs: the part of `plural_forms` for a count, with the name that real files have,
// and a value that is no number passed over.
#![tactic(auto)]

ghost use Rattle.std.specs.Prelude.{◌≡◌, ◌≤◌, length};
ghost use Rattle.header_fields.specs.Promise.{end_of};
ghost use Rattle.header_forms.specs.Forms.{is_count_name, count_in, form_count, forms_at};

use text::Stretch;
use text_trim::Set;

// The GNU manual's name, or the crate's.
fn is_count_name(name: &[u8]) -> bool
    ensures { result ≡ is_count_name name.now }
{
    text::equal(name, b"nplurals") || text::equal(name, b"n_plurals")
}

// The count in a piece of Plural-Forms.
#[tactic(auto, using(crate::proofs::Pieces::count_cases))]
fn count_in(piece: &[u8]) -> Option<u64>
    ensures { result ≡ count_in piece.now }
{
    let i = text::find_byte(piece, b'=');
    if piece.len() <= i {
        return None;
    }
    if !is_count_name(text_trim::trim(&piece[..i], Set::Six)) {
        return None;
    }
    let after = i + 1;
    text_digits::digits_of(text_trim::trim(&piece[after..], Set::Six))
}

// The last well-formed count in a Plural-Forms.
fn form_count(v: &[u8]) -> Option<u64>
    ensures { result ≡ form_count v.now }
{
    let mut found = None;
    let mut at = 0;
    // from piece to piece, as `text` finds where each ends, by blocks
    loop {
        let end = text::find_byte_from(v, at, b';');
        found = count_in(&v[at..end]).or(found);
        if v.len() <= end {
            return found;
        }
        at = end + 1;
    }
}

// The count in the Plural-Forms whose value lies at a place of the header. The caller proves that the place lies in it.
#[tactic(auto, using(crate::proofs::Pieces::at_place))]
pub fn forms_at(h: &[u8], p: Option<Stretch>) -> Option<u64>
    requires { end_of p ≤ length h.now }
    ensures { result ≡ forms_at h.now p }
{
    let p = p?;
    let end = p.start + p.len;
    form_count(&h[p.start..end])
}
