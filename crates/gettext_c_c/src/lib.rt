// The functions of `gettext_c` as a static library: what a host in C or Rust links. Each export calls the function of its name and promises
// the same.
#![tactic(auto)]

ghost use Rattle.std.specs.Prelude.{◌≡◌};
ghost use Rattle.text_utf8.specs.Utf8.{utf8};
ghost use Rattle.rules.specs.Pool.{pool};
ghost use Rattle.rules.specs.Value.{truth};
ghost use Rattle.rules_span.specs.Span as span;
ghost use Rattle.rules_span.specs.Span.{tally_of, figures_of};
ghost use Rattle.rules.specs.Answer.{resolved_of, rated_of, fit_of};
ghost use Rattle.lookup_scan.specs.Keys.{key_of};
ghost use Rattle.lookup_slots.specs.Used.{used};
ghost use Rattle.container.specs.Catalog.{load};
ghost use Rattle.container_cost.specs.Cost.{cost};
ghost use Rattle.host.specs.Host.{is_set, options_of, tables_in, nodes_in, root_in, answer_of, own_for, rating_of, fits_of, value_of};
ghost use Rattle.host.specs.Explained.{explained_of};
ghost use Rattle.gettext_c.specs.Why.{why_counted};
ghost use Rattle.gettext_c.specs.Record.{Loads, IsEmpty, Indexes, found, counted, found_in, counted_in, Writes};

use host::{Answer, Explained, Fits, Form, Loaded, Rating, Written};

#[unsafe(no_mangle)]
pub extern "C" fn gettext_c_empty(
    codes: &mut [u8; 512],
    places: &mut [u16; 1024],
    values: &mut [u64; 512],
) -> Loaded
    ensures { IsEmpty (pool codes.new places.new values.new) result }
{
    gettext_c::gettext_c_empty(codes, places, values)
}

#[unsafe(no_mangle)]
pub extern "C" fn gettext_c_load<'a>(
    file: &'a [u8],
    rule: &'a [u8],
    forced: u32,
    standard: u32,
    utf8: u32,
    fit: u32,
    codes: &mut [u8; 512],
    places: &mut [u16; 1024],
    values: &mut [u64; 512],
) -> Loaded
    ensures { Loads (load (options_of forced standard utf8 fit) rule.now file.now)
        (pool codes.new places.new values.new) result }
{
    gettext_c::gettext_c_load(
        file, rule, forced, standard, utf8, fit, codes, places, values,
    )
}

#[unsafe(no_mangle)]
pub extern "C" fn gettext_c_gettext<'a>(
    file: &'a [u8],
    head: &'a [usize; 7],
    given: u32,
    context: &'a [u8],
    id: &'a [u8],
) -> Answer
    ensures { result ≡ answer_of 1 (found file.now head.now (key_of (is_set given) context.now id.now)) }
{
    gettext_c::gettext_c_gettext(file, head, given, context, id)
}

#[unsafe(no_mangle)]
pub extern "C" fn gettext_c_ngettext<'a>(
    file: &'a [u8],
    head: &'a [usize; 7],
    codes: &'a [u8; 512],
    places: &'a [u16; 1024],
    values: &'a [u64; 512],
    given: u32,
    context: &'a [u8],
    id: &'a [u8],
    n: u64,
) -> Answer
    ensures { result ≡ answer_of (own_for n) (counted file.now head.now
        (pool codes.now places.now values.now) (key_of (is_set given) context.now id.now) n) }
{
    gettext_c::gettext_c_ngettext(file, head, codes, places, values, given, context, id, n)
}

#[unsafe(no_mangle)]
pub extern "C" fn gettext_c_slots<'a>(head: &'a [usize; 7]) -> usize
    ensures { result ≡ used (tables_in head.now).count }
{
    gettext_c::gettext_c_slots(head)
}

#[unsafe(no_mangle)]
pub extern "C" fn gettext_c_index<'a>(
    file: &'a [u8],
    head: &'a [usize; 7],
    slots: &mut [u32],
) -> u32
    ensures { Indexes file.now head.now slots.old slots.new result }
{
    gettext_c::gettext_c_index(file, head, slots)
}

#[unsafe(no_mangle)]
pub extern "C" fn gettext_c_gettext_indexed<'a>(
    file: &'a [u8],
    head: &'a [usize; 7],
    slots: &'a [u32],
    given: u32,
    context: &'a [u8],
    id: &'a [u8],
) -> Answer
    ensures { result ≡ answer_of 1 (found_in file.now head.now slots.now (key_of (is_set given) context.now id.now)) }
{
    gettext_c::gettext_c_gettext_indexed(file, head, slots, given, context, id)
}

#[unsafe(no_mangle)]
pub extern "C" fn gettext_c_ngettext_indexed<'a>(
    file: &'a [u8],
    head: &'a [usize; 7],
    slots: &'a [u32],
    codes: &'a [u8; 512],
    places: &'a [u16; 1024],
    values: &'a [u64; 512],
    given: u32,
    context: &'a [u8],
    id: &'a [u8],
    n: u64,
) -> Answer
    ensures { result ≡ answer_of (own_for n) (counted_in file.now head.now slots.now
        (pool codes.now places.now values.now) (key_of (is_set given) context.now id.now) n) }
{
    gettext_c::gettext_c_ngettext_indexed(
        file, head, slots, codes, places, values, given, context, id, n,
    )
}

#[unsafe(no_mangle)]
pub extern "C" fn gettext_c_rating<'a>(
    head: &'a [usize; 7],
    codes: &'a [u8; 512],
    places: &'a [u16; 1024],
    values: &'a [u64; 512],
) -> Rating
    ensures { result ≡ rating_of (rated_of (pool codes.now places.now values.now)
        (nodes_in head.now) (root_in head.now)) }
{
    gettext_c::gettext_c_rating(head, codes, places, values)
}

#[unsafe(no_mangle)]
pub extern "C" fn gettext_c_fits<'a>(
    head: &'a [usize; 7],
    codes: &'a [u8; 512],
    places: &'a [u16; 1024],
    values: &'a [u64; 512],
    k: u64,
) -> Fits
    ensures { result ≡ fits_of (fit_of (pool codes.now places.now values.now)
        (nodes_in head.now) (root_in head.now) k) }
{
    gettext_c::gettext_c_fits(head, codes, places, values, k)
}

#[unsafe(no_mangle)]
pub extern "C" fn gettext_c_resolve<'a>(
    head: &'a [usize; 7],
    codes: &'a [u8; 512],
    places: &'a [u16; 1024],
    values: &'a [u64; 512],
    n: u64,
) -> Form
    ensures { result ≡ value_of (resolved_of (pool codes.now places.now values.now)
        (nodes_in head.now) (root_in head.now) n) }
{
    gettext_c::gettext_c_resolve(head, codes, places, values, n)
}

#[unsafe(no_mangle)]
pub extern "C" fn gettext_c_text<'a>(
    head: &'a [usize; 7],
    codes: &'a [u8; 512],
    places: &'a [u16; 1024],
    values: &'a [u64; 512],
    buffer: &mut [u8],
) -> Written
    ensures { Writes (pool codes.now places.now values.now) head.now buffer.old buffer.new result }
{
    gettext_c::gettext_c_text(head, codes, places, values, buffer)
}

#[unsafe(no_mangle)]
pub extern "C" fn gettext_c_span<'a>(
    head: &'a [usize; 7],
    codes: &'a [u8; 512],
    places: &'a [u16; 1024],
    values: &'a [u64; 512],
    a: u64,
    b: u64,
    figures: &mut [u64; 18],
) -> u32
    ensures number { result ≡ span.number (tally_of (pool codes.now places.now values.now)
        (nodes_in head.now) (root_in head.now) a b) }
    ensures figures { figures.new ≡ figures_of (pool codes.now places.now values.now)
        (nodes_in head.now) (root_in head.now) a b }
{
    gettext_c::gettext_c_span(head, codes, places, values, a, b, figures)
}

#[unsafe(no_mangle)]
pub extern "C" fn gettext_c_is_utf8(text: &[u8]) -> u32
    ensures { result ≡ truth (utf8 text.now) }
{
    gettext_c::gettext_c_is_utf8(text)
}

#[unsafe(no_mangle)]
pub extern "C" fn gettext_c_cost(file: &[u8]) -> u64
    ensures { result ≡ cost file.now }
{
    gettext_c::gettext_c_cost(file)
}

#[unsafe(no_mangle)]
pub extern "C" fn gettext_c_why_ngettext<'a>(
    file: &'a [u8],
    head: &'a [usize; 7],
    codes: &'a [u8; 512],
    places: &'a [u16; 1024],
    values: &'a [u64; 512],
    given: u32,
    context: &'a [u8],
    id: &'a [u8],
    n: u64,
) -> Explained
    ensures { result ≡ explained_of (own_for n) (why_counted file.now head.now
        (pool codes.now places.now values.now) (key_of (is_set given) context.now id.now) n) }
{
    gettext_c::gettext_c_why_ngettext(file, head, codes, places, values, given, context, id, n)
}
