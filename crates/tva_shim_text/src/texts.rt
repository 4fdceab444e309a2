// The text of a shim.
ghost use Rattle.std.specs.Prelude.{◌≡◌, ◌<◌, ◌^◌, ◌∷◌, [], ◌++◌, IfOk, OnOk, codes, decimal, string_bytes};
ghost use Rattle.hex.specs.Hex.{encode_lower};
ghost use Rattle.tva_shim_text.specs.ShimText.{IsTextOf, caps_word, demoted_word, digits_of, entries_word, entry_word, head_words, kind_name, kind_words, nonce_word, return_words, rights_words, shim_line, shown_words, spaced};

use byteorder::{BigEndian, ByteOrder};
use itoa::Buffer;
use std::alloc::{AllocError, Global};
use tva_base::Rights;
use tva_shim::{Entry, Kind, ReturnInfo, Shim, Shown, decode};

/// The text of the shim whose layout these bytes are, or `malformed` where there is none, without
/// a line feed.
pub fn shim_text(alloc: Global, bytes: &[u8]) -> Result<String, AllocError>
    ensures { IfOk result (λ text. IsTextOf bytes.now (string_bytes text)) }
{
    match decode(bytes) {
        Some(shim) => line_of(alloc, &shim),
        None => String::from_str(alloc, "malformed"),
    }
}

#[tactic(auto, unfolding(crate::specs::ShimText::shim_line))]
fn line_of(alloc: Global, shim: &Shim) -> Result<String, AllocError>
    ensures { IfOk result (λ text. string_bytes text ≡ shim_line shim.now) }
{
    let mut text = String::new(alloc);
    put_number(&mut text, "v", u64::from(shim.version))?;
    put_head(&mut text, shim)?;
    put_kind(alloc, &mut text, shim)?;
    put_return(alloc, &mut text, &shim.back)?;
    Ok(text)
}

fn put_head(text: &mut String, shim: &Shim) -> Result<(), AllocError>
    ensures { OnOk result (string_bytes text.new ≡ string_bytes text.old ++ spaced (head_words shim.now)) }
{
    text.push_str(" ")?;
    text.push_str(kind_word(&shim.kind))?;
    text.push_str(if shim.demoted {
        " demoted=1"
    } else {
        " demoted=0"
    })?;
    put_number(text, " protocol=", u64::from(shim.protocol))
}

fn kind_word(kind: &Kind) -> &'static str
    ensures { result.now ≡ kind_name kind.now }
{
    match kind {
        Kind::Request(_) => "request",
        Kind::List(_) => "list",
        Kind::Nonce(_) => "nonce",
        Kind::Renewal(_) => "renewal",
    }
}

fn put_number(text: &mut String, name: &str, number: u64) -> Result<(), AllocError>
    ensures { OnOk result (string_bytes text.new ≡ string_bytes text.old ++ name.now ++ decimal number) }
{
    text.push_str(name)?;
    text.push_str(Buffer::new().format(number))
}

fn put_hex(alloc: Global, text: &mut String, bytes: &[u8]) -> Result<(), AllocError>
    ensures { OnOk result (string_bytes text.new ≡ string_bytes text.old ++ encode_lower bytes.now) }
{
    let digits = hex::encode(alloc, bytes)?;
    text.push_str(digits.as_str())
}

fn put_tag(alloc: Global, text: &mut String, tag: u16) -> Result<(), AllocError>
    ensures { OnOk result (string_bytes text.new ≡ string_bytes text.old ++ digits_of 2 tag) }
{
    let mut bytes = [0u8; 2];
    BigEndian::write_u16(&mut bytes, tag);
    put_hex(alloc, text, &bytes)
}

fn put_nonce(alloc: Global, text: &mut String, nonce: u64) -> Result<(), AllocError>
    requires { nonce < 2 ^ 48 }
    ensures { OnOk result (string_bytes text.new ≡ string_bytes text.old ++ spaced (nonce_word nonce ∷ [])) }
{
    let mut bytes = [0u8; 6];
    BigEndian::write_u48(&mut bytes, nonce);
    text.push_str(" nonce=")?;
    put_hex(alloc, text, &bytes)
}

fn put_cap(alloc: Global, text: &mut String, cap: u64) -> Result<(), AllocError>
    ensures { OnOk result (string_bytes text.new ≡ string_bytes text.old ++ digits_of 8 cap) }
{
    let mut bytes = [0u8; 8];
    BigEndian::write_u64(&mut bytes, cap);
    put_hex(alloc, text, &bytes)
}

fn put_entry(alloc: Global, text: &mut String, entry: &Entry) -> Result<(), AllocError>
    ensures { OnOk result (string_bytes text.new ≡ string_bytes text.old ++ entry_word entry.now) }
{
    put_tag(alloc, text, entry.tag)?;
    text.push_str(":")?;
    put_cap(alloc, text, entry.precap)
}

fn put_entries(alloc: Global, text: &mut String, entries: &[Entry]) -> Result<(), AllocError>
    ensures { OnOk result (string_bytes text.new ≡ string_bytes text.old ++ spaced (entries_word entries.now ∷ [])) }
{
    text.push_str(" entries=")?;
    let [first, rest @ ..] = entries else {
        return text.push_str("-");
    };
    put_entry(alloc, text, first)?;
    for entry in rest {
        text.push_str(",")?;
        put_entry(alloc, text, entry)?;
    }
    Ok(())
}

fn put_caps(alloc: Global, text: &mut String, caps: &[u64]) -> Result<(), AllocError>
    ensures { OnOk result (string_bytes text.new ≡ string_bytes text.old ++ spaced (caps_word caps.now ∷ [])) }
{
    text.push_str(" caps=")?;
    let [first, rest @ ..] = caps else {
        return text.push_str("-");
    };
    put_cap(alloc, text, *first)?;
    for cap in rest {
        text.push_str(",")?;
        put_cap(alloc, text, *cap)?;
    }
    Ok(())
}

fn put_rights(text: &mut String, rights: Rights) -> Result<(), AllocError>
    ensures { OnOk result (string_bytes text.new ≡ string_bytes text.old ++ spaced (rights_words rights)) }
{
    put_number(text, " n=", u64::from(rights.n))?;
    put_number(text, " t=", u64::from(rights.t))
}

fn put_shown(alloc: Global, text: &mut String, shown: &Shown) -> Result<(), AllocError>
    requires { shown.now.nonce < 2 ^ 48 }
    ensures { OnOk result (string_bytes text.new ≡ string_bytes text.old ++ spaced (shown_words shown.now)) }
{
    put_nonce(alloc, text, shown.nonce)?;
    put_number(text, " pointer=", u64::from(shown.pointer))?;
    put_rights(text, shown.rights)?;
    put_caps(alloc, text, shown.caps.as_slice())
}

fn put_kind(alloc: Global, text: &mut String, shim: &Shim) -> Result<(), AllocError>
    ensures { OnOk result (string_bytes text.new ≡ string_bytes text.old ++ spaced (kind_words shim.now.kind)) }
{
    match &shim.kind {
        Kind::Request(entries) => put_entries(alloc, text, entries.listed().as_slice()),
        Kind::List(shown) => put_shown(alloc, text, shown),
        Kind::Nonce(nonce) => put_nonce(alloc, text, *nonce),
        Kind::Renewal(shown) => put_shown(alloc, text, shown),
    }
}

fn put_return(alloc: Global, text: &mut String, back: &ReturnInfo) -> Result<(), AllocError>
    ensures { OnOk result (string_bytes text.new ≡ string_bytes text.old ++ spaced (return_words back.now)) }
{
    match back {
        ReturnInfo::Nothing => text.push_str(" return=-"),
        ReturnInfo::Notice => text.push_str(" return=notice"),
        ReturnInfo::Grant { rights, caps } => {
            text.push_str(" return=grant")?;
            put_rights(text, *rights)?;
            put_caps(alloc, text, caps.as_slice())
        }
    }
}
