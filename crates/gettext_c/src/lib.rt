// The port for a host in C or Rust: the file is lent, numbers come back, and the host takes the text that they
// name from its own memory. A record is what the host keeps of a load: its head, seven numbers, and the three arrays of its rule's nodes,
// which a load writes and every other function only reads. `gettext_c_c` exports each as a static library, so the signatures are those of C: a
// flag is a number, and the arrays and the context stand beside one another. `host` makes options, a rule and a key of them.
#![tactic(auto)]

ghost use Rattle.std.specs.Prelude.{◌≡◌};
ghost use Rattle.text_utf8.specs.Utf8.{utf8};
ghost use Rattle.rules.specs.Pool.{pool};
ghost use Rattle.rules.specs.Value.{truth};
ghost use Rattle.rules_span.specs.Span as span;
ghost use Rattle.rules_span.specs.Span.{tally_of, figures_of};
ghost use Rattle.rules.specs.Answer.{resolved_of, rated_of, fit_of};
ghost use Rattle.lookup_scan.specs.Keys.{key_of};
ghost use Rattle.lookup_slots.specs.Used.{used};
ghost use Rattle.container.specs.Catalog.{load};
ghost use Rattle.container_cost.specs.Cost.{cost};
ghost use Rattle.host.specs.Host.{is_set, options_of, tables_in, nodes_in, root_in, answer_of, own_for, rating_of, fits_of, value_of};
ghost use Rattle.host.specs.Explained.{explained_of};
ghost use Rattle.gettext_c.specs.Why.{why_counted};
ghost use Rattle.gettext_c.specs.Record.{Loads, IsEmpty, Indexes, found, counted, found_in, counted_in, Writes};

use host::{Answer, Explained, Fits, Form, Loaded, Rating, Written, key_in, rule_in, tables_in};

// The empty catalog.
pub fn gettext_c_empty(
    codes: &mut [u8; 512],
    places: &mut [u16; 1024],
    values: &mut [u64; 512],
) -> Loaded
    ensures { IsEmpty (pool codes.new places.new values.new) result }
{
    let loading = container::empty_into(Ok(()), codes, places, values);
    host::loaded_of(loading)
}

// Loads the catalog that lies in the file. `rule` is read where `forced` is set; `standard` chooses the reading of rules; `fit` demands that the
// rule fit the header's count of forms.
pub fn gettext_c_load<'a>(
    file: &'a [u8],
    rule: &'a [u8],
    forced: u32,
    standard: u32,
    utf8: u32,
    fit: u32,
    codes: &mut [u8; 512],
    places: &mut [u16; 1024],
    values: &mut [u64; 512],
) -> Loaded
    ensures { Loads (load (options_of forced standard utf8 fit) rule.now file.now)
        (pool codes.new places.new values.new) result }
{
    let options = host::options_of(forced, standard, utf8, fit);
    let loading = container::load_into(file, rule, options, codes, places, values);
    host::loaded_of(loading)
}

// A lookup without a count: `gettext`, and where `given` is set `pgettext`, whose context it is. Each lookup is one function with a flag for the
// context, and not two, so that the compiler makes one piece of all that it calls.
pub fn gettext_c_gettext<'a>(
    file: &'a [u8],
    head: &'a [usize; 7],
    given: u32,
    context: &'a [u8],
    id: &'a [u8],
) -> Answer
    ensures { result ≡ answer_of 1 (found file.now head.now (key_of (is_set given) context.now id.now)) }
{
    let reason = lookup::find(file, tables_in(head), key_in(given, context, id));
    host::answer_of(reason, 1)
}

// A lookup with a count: `ngettext`, and where `given` is set `npgettext`.
pub fn gettext_c_ngettext<'a>(
    file: &'a [u8],
    head: &'a [usize; 7],
    codes: &'a [u8; 512],
    places: &'a [u16; 1024],
    values: &'a [u64; 512],
    given: u32,
    context: &'a [u8],
    id: &'a [u8],
    n: u64,
) -> Answer
    ensures { result ≡ answer_of (own_for n) (counted file.now head.now
        (pool codes.now places.now values.now) (key_of (is_set given) context.now id.now) n) }
{
    let rule = rule_in(head, codes, places, values);
    let key = key_in(given, context, id);
    let reason = lookup::nfind(file, tables_in(head), rule, key, n);
    host::answer_of(reason, host::own_for(n))
}

// How many slots the index of a record uses.
pub fn gettext_c_slots<'a>(head: &'a [usize; 7]) -> usize
    ensures { result ≡ used (tables_in head.now).count }
{
    let t = tables_in(head);
    lookup_slots::used_by(t.count)
}

// Builds the index of a record and its file in the first of the slots lent, and answers its number.
pub fn gettext_c_index<'a>(file: &'a [u8], head: &'a [usize; 7], slots: &mut [u32]) -> u32
    ensures { Indexes file.now head.now slots.old slots.new result }
{
    let building = lookup_index::build(file, tables_in(head), slots);
    lookup_index::number_of(building)
}

// The same lookups in slots that an index of this record and this file was built in. Other slots do no harm.
pub fn gettext_c_gettext_indexed<'a>(
    file: &'a [u8],
    head: &'a [usize; 7],
    slots: &'a [u32],
    given: u32,
    context: &'a [u8],
    id: &'a [u8],
) -> Answer
    ensures { result ≡ answer_of 1 (found_in file.now head.now slots.now (key_of (is_set given) context.now id.now)) }
{
    let reason = lookup::find_indexed(file, tables_in(head), slots, key_in(given, context, id));
    host::answer_of(reason, 1)
}

pub fn gettext_c_ngettext_indexed<'a>(
    file: &'a [u8],
    head: &'a [usize; 7],
    slots: &'a [u32],
    codes: &'a [u8; 512],
    places: &'a [u16; 1024],
    values: &'a [u64; 512],
    given: u32,
    context: &'a [u8],
    id: &'a [u8],
    n: u64,
) -> Answer
    ensures { result ≡ answer_of (own_for n) (counted_in file.now head.now slots.now
        (pool codes.now places.now values.now) (key_of (is_set given) context.now id.now) n) }
{
    let rule = rule_in(head, codes, places, values);
    let key = key_in(given, context, id);
    let reason = lookup::nfind_indexed(file, tables_in(head), slots, rule, key, n);
    host::answer_of(reason, host::own_for(n))
}

// The lowest and the highest form of a record's rule.
pub fn gettext_c_rating<'a>(
    head: &'a [usize; 7],
    codes: &'a [u8; 512],
    places: &'a [u16; 1024],
    values: &'a [u64; 512],
) -> Rating
    ensures { result ≡ rating_of (rated_of (pool codes.now places.now values.now)
        (nodes_in head.now) (root_in head.now)) }
{
    let rule = rule_in(head, codes, places, values);
    host::rating_of(rules_range::rating_of(rule))
}

// Whether a record's rule is rated and names forms below k alone.
pub fn gettext_c_fits<'a>(
    head: &'a [usize; 7],
    codes: &'a [u8; 512],
    places: &'a [u16; 1024],
    values: &'a [u64; 512],
    k: u64,
) -> Fits
    ensures { result ≡ fits_of (fit_of (pool codes.now places.now values.now)
        (nodes_in head.now) (root_in head.now) k) }
{
    let rule = rule_in(head, codes, places, values);
    host::fits_of(rules_range::fits(rule, k))
}

// The form that a record's rule names for a count.
pub fn gettext_c_resolve<'a>(
    head: &'a [usize; 7],
    codes: &'a [u8; 512],
    places: &'a [u16; 1024],
    values: &'a [u64; 512],
    n: u64,
) -> Form
    ensures { result ≡ value_of (resolved_of (pool codes.now places.now values.now)
        (nodes_in head.now) (root_in head.now) n) }
{
    let rule = rule_in(head, codes, places, values);
    host::form_of(rules_value::resolve(rule, n))
}

// Writes the text of a record's rule, with brackets round every operator, into the buffer. What it does not need of the buffer stays.
pub fn gettext_c_text<'a>(
    head: &'a [usize; 7],
    codes: &'a [u8; 512],
    places: &'a [u16; 1024],
    values: &'a [u64; 512],
    buffer: &mut [u8],
) -> Written
    ensures { Writes (pool codes.now places.now values.now) head.now buffer.old buffer.new result }
{
    let rule = rule_in(head, codes, places, values);
    let writing = rules_text::write(rule, buffer);
    host::written_of(writing)
}

// How often each form of a record's rule occurs for the counts from a to b: the figures of forms 0 to 15, of those above, and of the counts
// that meet a zero divisor.
pub fn gettext_c_span<'a>(
    head: &'a [usize; 7],
    codes: &'a [u8; 512],
    places: &'a [u16; 1024],
    values: &'a [u64; 512],
    a: u64,
    b: u64,
    figures: &mut [u64; 18],
) -> u32
    ensures number { result ≡ span.number (tally_of (pool codes.now places.now values.now)
        (nodes_in head.now) (root_in head.now) a b) }
    ensures figures { figures.new ≡ figures_of (pool codes.now places.now values.now)
        (nodes_in head.now) (root_in head.now) a b }
{
    let rule = rule_in(head, codes, places, values);
    let counting = rules_span::tally(rule, a, b, figures);
    rules_span::number_of(counting)
}

// Whether a text is UTF-8: 1 or 0.
pub fn gettext_c_is_utf8(text: &[u8]) -> u32
    ensures { result ≡ truth (utf8 text.now) }
{
    host::flag_of(text_utf8::is_utf8(text))
}

// What loading a file costs: the sum of the lengths that its tables state, in the time of a pass over them.
pub fn gettext_c_cost(file: &[u8]) -> u64
    ensures { result ≡ cost file.now }
{
    container_cost::cost(file)
}

// Why `gettext_c_ngettext` of the same answers as it does.
pub fn gettext_c_why_ngettext<'a>(
    file: &'a [u8],
    head: &'a [usize; 7],
    codes: &'a [u8; 512],
    places: &'a [u16; 1024],
    values: &'a [u64; 512],
    given: u32,
    context: &'a [u8],
    id: &'a [u8],
    n: u64,
) -> Explained
    ensures { result ≡ explained_of (own_for n) (why_counted file.now head.now
        (pool codes.now places.now values.now) (key_of (is_set given) context.now id.now) n) }
{
    let rule = rule_in(head, codes, places, values);
    let key = key_in(given, context, id);
    let why = lookup_why::explain(file, tables_in(head), rule, key, n);
    host::explained_of(why, host::own_for(n))
}
