//! The answers to LIST (RFC 9051, 6.3.9 and 7.3.1) and LSUB (RFC 3501, 6.3.9 and 7.2.3), and which names a pattern stands for.
//! Which names there are is told by whoever calls it.

ghost use Rattle.std.specs.Prelude.{◌≡◌, ◌+◌, ◌<◌, ◌≤◌, ◌++◌, length, drop, IfOk, OnOk, OnErr, [], map, flat_map, vec_capacity};
ghost use Rattle.std.specs.Io.{StartsWith};
ghost use Rattle.imap_answers.specs.Answers.{matches, is_listed, listed, asks_for_root, list_answer, name_answer, root_answer};
ghost use Rattle.imap_answers.specs.inner.Globs.{is_wild, at_byte, Reached};

use imap_grammar::Name;
use line_io::append_parts;
use std::alloc::{AllocError, Global};

/// Which names are told.
#[derive(Clone, Copy, Debug, PartialEq, Eq)]
pub enum Listing {
    /// Those of LIST: all that there are.
    All,
    /// Those of LSUB: a client is subscribed to all that there are.
    Subscribed,
}

// The line that tells what separates levels.
fn root_answer(listing: Listing) -> &'static [u8]
    ensures { result.now ≡ root_answer listing }
{
    match listing {
        Listing::All => b"* LIST (\\Noselect) \"/\" \"\"\r\n",
        Listing::Subscribed => b"* LSUB (\\Noselect) \"/\" \"\"\r\n",
    }
}

fn is_wild(p: u8) -> bool
    ensures { result ≡ is_wild p }
{
    p == b'*' || p == b'%'
}

/// Whether a pattern that begins with this byte stands for a text that begins with that one: `here`
/// says whether the rest of the pattern stands for the text, `behind` whether it stands for the rest
/// of the text, and `next` whether the pattern stands for the rest of the text.
fn at_byte(p: u8, b: u8, here: bool, behind: bool, next: bool) -> bool
    ensures { result ≡ at_byte p b here behind next }
{
    match p {
        b'*' => here || next,
        b'%' => here || (b != b'/' && next),
        _ => b == p && behind,
    }
}

/// One byte of the pattern more: from what is left of the name after each of its bytes, whether the
/// pattern without its first byte stands for that, to whether the pattern does.
fn step(pattern: &[u8], name: &[u8], ok: &mut [bool])
    requires some { 0 < length pattern.now }
    requires counted { length ok.old ≡ length name.now + 1 }
    requires reached { Reached (drop 1 pattern.now) name.now ok.old }
    ensures counted { length ok.new ≡ length name.now + 1 }
    ensures reached { Reached pattern.now name.now ok.new }
{
    let p = pattern[0];
    let mut behind = ok[name.len()];
    ok[name.len()] = is_wild(p) && behind;
    let mut i = name.len();
    while i > 0 {
        i -= 1;
        let here = ok[i];
        ok[i] = at_byte(p, name[i], here, behind, ok[i + 1]);
        behind = here;
    }
}

/// For each position of a name, whether the empty pattern stands for what is left from there on.
fn ends(alloc: Global, name: &[u8]) -> Result<Vec<bool>, AllocError>
    ensures counted { IfOk result (λ v. length v.items ≡ length name.now + 1) }
    ensures reached { IfOk result (λ v. Reached [] name.now v.items) }
{
    let mut ok = Vec::new(alloc);
    for _position in 0..name.len() {
        ok.push(false)?;
    }
    ok.push(true)?;
    Ok(ok)
}

/// Whether a pattern stands for a name. It takes as many steps as the pattern has bytes times those of
/// the name, and memory for the name's bytes.
///
/// Errors: `AllocError` where memory is refused.
fn matches(alloc: Global, pattern: &[u8], name: &[u8]) -> Result<bool, AllocError>
    ensures { IfOk result (λ b. b ≡ matches pattern.now name.now) }
{
    let mut ok = ends(alloc, name)?;
    let mut at = pattern.len();
    while at > 0 {
        at -= 1;
        step(&pattern[at..], name, &mut ok);
    }
    Ok(ok[0])
}

/// Whether a pattern stands for a name, where INBOX has no case.
fn is_listed(alloc: Global, pattern: &[u8], name: &[u8]) -> Result<bool, AllocError>
    ensures { IfOk result (λ b. b ≡ is_listed pattern.now name.now) }
{
    if !name.eq_ignore_ascii_case(b"INBOX") {
        return matches(alloc, pattern, name);
    }
    let pattern = pattern.to_ascii_lowercase(alloc)?;
    let name = name.to_ascii_lowercase(alloc)?;
    matches(alloc, &pattern, &name)
}

/// The bytes of both, one after the other.
fn one_text(alloc: Global, first: &[u8], second: &[u8]) -> Result<Vec<u8>, AllocError>
    ensures { IfOk result (λ v. v.items ≡ first.now ++ second.now) }
{
    let mut whole = Vec::from_slice(alloc, first)?;
    whole.extend_from_slice(second)?;
    Ok(whole)
}

// Appends the line of a name that LIST tells, or nothing where memory is refused.
fn write_one(name: &[u8], out: &mut Vec<u8>) -> Result<(), AllocError>
    ensures ok { OnOk result (out.new.items ≡ out.old.items ++ name_answer Listing.All name.now) }
    ensures err { OnErr result (out.new.items ≡ out.old.items) }
    ensures room { vec_capacity out.old ≤ vec_capacity out.new }
{
    append_parts(
        &[b"* LIST () \"/\" ".as_slice(), name, b"\r\n".as_slice()],
        out,
    )
}

// Appends the line of a name that LSUB tells, or nothing where memory is refused.
fn write_subscribed(name: &[u8], out: &mut Vec<u8>) -> Result<(), AllocError>
    ensures ok { OnOk result (out.new.items
        ≡ out.old.items ++ name_answer Listing.Subscribed name.now) }
    ensures err { OnErr result (out.new.items ≡ out.old.items) }
    ensures room { vec_capacity out.old ≤ vec_capacity out.new }
{
    append_parts(
        &[b"* LSUB () \"/\" ".as_slice(), name, b"\r\n".as_slice()],
        out,
    )
}

// Appends the line of a name, or nothing where memory is refused.
fn write_name(listing: Listing, name: &[u8], out: &mut Vec<u8>) -> Result<(), AllocError>
    ensures ok { OnOk result (out.new.items ≡ out.old.items ++ name_answer listing name.now) }
    ensures err { OnErr result (out.new.items ≡ out.old.items) }
    ensures room { vec_capacity out.old ≤ vec_capacity out.new }
{
    match listing {
        Listing::All => write_one(name, out),
        Listing::Subscribed => write_subscribed(name, out),
    }
}

/// Appends the line of a name, if the pattern stands for it, or a part of it.
#[tactic(auto, using(crate::proofs::GlobLaw::listed_true, crate::proofs::GlobLaw::listed_false))]
fn put_name(
    alloc: Global,
    listing: Listing,
    pattern: &[u8],
    name: &[u8],
    out: &mut Vec<u8>,
) -> Result<(), AllocError>
    ensures ok { OnOk result (out.new.items
        ≡ out.old.items ++ listed listing pattern.now name.now) }
    ensures err { OnErr result (StartsWith out.new.items out.old.items) }
    ensures room { vec_capacity out.old ≤ vec_capacity out.new }
{
    let listed = is_listed(alloc, pattern, name)?;
    if !listed {
        return Ok(());
    }
    write_name(listing, name, out)?;
    Ok(())
}

/// Appends the lines of the names that a pattern stands for, or a part of them.
fn put_names(
    alloc: Global,
    listing: Listing,
    pattern: &[u8],
    names: &[&[u8]],
    out: &mut Vec<u8>,
) -> Result<(), AllocError>
    ensures ok { OnOk result (out.new.items
        ≡ out.old.items ++ flat_map (λ name. listed listing pattern.now name.now) names.now) }
    ensures err { OnErr result (StartsWith out.new.items out.old.items) }
    ensures room { vec_capacity out.old ≤ vec_capacity out.new }
{
    for name in names {
        put_name(alloc, listing, pattern, name, out)?;
    }
    Ok(())
}

fn asks_for_root(reference: &[u8], pattern: &[u8]) -> bool
    ensures { result ≡ asks_for_root reference.now pattern.now }
{
    reference.is_empty() && pattern.is_empty()
}

/// Appends the answer to LIST or LSUB, or a part of it.
fn put_list(
    alloc: Global,
    listing: Listing,
    reference: &[u8],
    pattern: &[u8],
    names: &[&[u8]],
    out: &mut Vec<u8>,
) -> Result<(), AllocError>
    ensures ok { OnOk result (out.new.items
        ≡ out.old.items ++ list_answer listing reference.now pattern.now (map (λ name.
        name.now) names.now)) }
    ensures err { OnErr result (StartsWith out.new.items out.old.items) }
    ensures room { vec_capacity out.old ≤ vec_capacity out.new }
{
    if asks_for_root(reference, pattern) {
        return append_parts(&[root_answer(listing)], out);
    }
    let whole = one_text(alloc, reference, pattern)?;
    put_names(alloc, listing, &whole, names, out)?;
    Ok(())
}

/// Appends the answer to LIST or LSUB about these names, in their order: a line for each that the reference
/// followed by the pattern stands for, where `*` stands for any bytes, `%` for any but `/`, and INBOX
/// has no case. Where both are empty, the one line that tells what separates levels (RFC 9051, 6.3.9).
///
/// Errors: `AllocError` where memory is refused; then `out` is as it was.
pub fn write_list(
    alloc: Global,
    listing: Listing,
    reference: &Name<'_>,
    pattern: &Name<'_>,
    names: &[&[u8]],
    out: &mut Vec<u8>,
) -> Result<(), AllocError>
    // The answer is `list_answer`, byte by byte. An error writes nothing, and the room of `out` never becomes less.
    ensures ok { OnOk result (out.new.items
        ≡ out.old.items ++ list_answer listing reference.now pattern.now (map (λ name.
        name.now) names.now)) }
    ensures err { OnErr result (out.new.items ≡ out.old.items) }
    ensures room { vec_capacity out.old ≤ vec_capacity out.new }
{
    let before = out.len();
    let reference = reference.to_bytes(alloc)?;
    let pattern = pattern.to_bytes(alloc)?;
    let Ok(()) = put_list(alloc, listing, &reference, &pattern, names, out) else {
        out.truncate(before);
        return Err(AllocError);
    };
    Ok(())
}
