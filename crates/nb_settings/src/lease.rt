//! The settings that a DHCP acknowledgement gives the block of a lease (RFC 2131, RFC 2132).

ghost use Rattle.std.specs.Prelude.{◌≡◌, ◌++◌, ◌∷◌, [], IfOk, OnOk};
ghost use Rattle.nb_dhcpmsg.specs.Messages.{IsMessage};
ghost use Rattle.nb_dhcpmsg.specs.Views.{parts_of};
ghost use Rattle.nb_dhcpmsg.specs.Collected.{tag_values};
ghost use Rattle.nb_dhcpmsg.specs.Fields.{inner_options};
ghost use Rattle.nb_dhcpmsg.specs.Options.{joined};
ghost use Rattle.nb_settings.specs.Keys.{key_of};
ghost use Rattle.nb_settings.specs.LeaseSettings.{numbered, option_kind, option_bytes, option_setting, value_settings, is_left_out, is_named_file, tag_settings, within_settings, options_in, options_within, address_setting, address_settings, lease_settings, last_signed, lease_priority};

use crate::nulls::without_nulls;
use crate::setting::Setting;
use crate::{Key, Kind, MAX_VALUE};
use arrayvec::ArrayVec;
use nb_dhcpmsg::{DhcpMsg, DhcpOption, has_tag, joined_value, options_within};
use nb_terms::NoMemory;
use nb_wire::Ip4;
use std::alloc::Global;

/// The last number of an option; 255 ends them (RFC 2132, section 2).
const MAX_TAG: u8 = 254;
/// The option of a file's name (RFC 2132, section 9.5).
const FILE: u8 = 67;
/// Options that say how the message is read (RFC 2132, sections 9.3 and 9.6).
const OVERLOAD: u8 = 52;

const KIND: u8 = 53;
/// The option that holds options.
const OUTER: u8 = 175;
/// The option within it that is the block's priority.
const PRIORITY: u8 = 1;

/// The settings of a lease: those of its options, of the options within option 175, and its addresses.
pub fn lease_settings(
    alloc: Global,
    block: &[u8],
    message: &DhcpMsg<'_>,
) -> Result<Vec<Setting>, NoMemory>
    requires { IsMessage message.now.whole.now (parts_of message.now) }
    ensures { IfOk result
        (λ settings. settings.items ≡ lease_settings block.now message.now.whole.now) }
{
    let options = message.options(alloc)?;
    let mut settings = Vec::new(alloc);
    put_tags(alloc, block, message, options.as_slice(), &mut settings)?;
    put_within(alloc, block, options.as_slice(), &mut settings)?;
    put_addresses(alloc, block, message.yiaddr, message.siaddr, &mut settings)?;
    Ok(settings)
}

/// The priority of a lease's block: the last byte of option 175.1, or 0.
pub fn lease_priority(message: &DhcpMsg<'_>) -> i8
    requires { IsMessage message.now.whole.now (parts_of message.now) }
    ensures { result ≡ lease_priority (options_within message.now.whole.now) }
{
    let mut value = ArrayVec::new();
    if !message.sub(OUTER, PRIORITY, &mut value) {
        return 0;
    }
    last_signed(value.as_slice())
}

fn last_signed(bytes: &[u8]) -> i8
    ensures { result ≡ last_signed bytes.now }
{
    match bytes {
        [.., last] => last.cast_signed(),
        [] => 0,
    }
}

fn put_tags(
    alloc: Global,
    block: &[u8],
    message: &DhcpMsg<'_>,
    options: &[DhcpOption<'_>],
    to: &mut Vec<Setting>,
) -> Result<(), NoMemory>
    requires message { IsMessage message.now.whole.now (parts_of message.now) }
    requires options { tag_values options.now ≡ options_in message.now.whole.now }
    ensures { OnOk result (to.new.items ≡ to.old.items
        ++ numbered (tag_settings block.now message.now.whole.now) 254) }
{
    for earlier in 0..MAX_TAG {
        put_tag(alloc, block, message, options, earlier + 1, to)?;
    }
    Ok(())
}

/// Puts the setting of an option after the others. A file's name in the field for one goes before option 67.
fn put_tag(
    alloc: Global,
    block: &[u8],
    message: &DhcpMsg<'_>,
    options: &[DhcpOption<'_>],
    tag: u8,
    to: &mut Vec<Setting>,
) -> Result<(), NoMemory>
    requires message { IsMessage message.now.whole.now (parts_of message.now) }
    requires options { tag_values options.now ≡ options_in message.now.whole.now }
    ensures { OnOk result (to.new.items ≡ to.old.items
        ++ tag_settings block.now message.now.whole.now tag) }
{
    if is_left_out(tag) {
        return Ok(());
    }
    if is_named_file(message, tag) {
        return put_option(alloc, block, &Key::Tag(tag), message.file(), to);
    }
    put_value(alloc, block, &Key::Tag(tag), options, tag, to)
}

fn is_left_out(tag: u8) -> bool
    ensures { result ≡ is_left_out tag }
{
    tag == OVERLOAD || tag == KIND || tag == OUTER
}

fn is_named_file(message: &DhcpMsg<'_>, tag: u8) -> bool
    requires { IsMessage message.now.whole.now (parts_of message.now) }
    ensures { result ≡ is_named_file message.now.whole.now tag }
{
    tag == FILE && !message.file().is_empty()
}

/// Puts the settings of the options within option 175 after the others.
fn put_within(
    alloc: Global,
    block: &[u8],
    options: &[DhcpOption<'_>],
    to: &mut Vec<Setting>,
) -> Result<(), NoMemory>
    ensures { OnOk result (to.new.items ≡ to.old.items
        ++ numbered (within_settings block.now (inner_options (joined 175 (tag_values options.now)))) 254) }
{
    let outer = joined_value(alloc, options, OUTER)?;
    let inner = options_within(alloc, outer.as_slice())?;
    put_inner(alloc, block, inner.as_slice(), to)
}

fn put_inner(
    alloc: Global,
    block: &[u8],
    options: &[DhcpOption<'_>],
    to: &mut Vec<Setting>,
) -> Result<(), NoMemory>
    ensures { OnOk result (to.new.items ≡ to.old.items
        ++ numbered (within_settings block.now (tag_values options.now)) 254) }
{
    for earlier in 0..MAX_TAG {
        let inner = earlier + 1;
        put_value(alloc, block, &Key::Sub(OUTER, inner), options, inner, to)?;
    }
    Ok(())
}

/// Puts the setting of a tag's joined value after the others: none where no option has the tag, or the value is too
/// long.
fn put_value(
    alloc: Global,
    block: &[u8],
    key: &Key<'_>,
    options: &[DhcpOption<'_>],
    tag: u8,
    to: &mut Vec<Setting>,
) -> Result<(), NoMemory>
    ensures { OnOk result (to.new.items ≡ to.old.items
        ++ value_settings block.now (key_of key.now) tag (tag_values options.now)) }
{
    if !has_tag(options, tag) {
        return Ok(());
    }
    let value = joined_value(alloc, options, tag)?;
    if value.len() > MAX_VALUE {
        return Ok(());
    }
    put_option(alloc, block, key, value.as_slice(), to)
}

/// Puts the setting of an option after the others.
#[tactic(auto, unfolding(crate::specs::LeaseSettings::option_setting))]
fn put_option(
    alloc: Global,
    block: &[u8],
    key: &Key<'_>,
    bytes: &[u8],
    to: &mut Vec<Setting>,
) -> Result<(), NoMemory>
    ensures { OnOk result (to.new.items ≡ to.old.items
        ++ option_setting block.now (key_of key.now) bytes.now ∷ []) }
{
    let kind = option_kind(key);
    let setting = Setting::new(alloc, block, key, kind, option_bytes(kind, bytes))?;
    to.push(setting)?;
    Ok(())
}

/// The listed kind, or hex.
fn option_kind(key: &Key<'_>) -> Kind
    ensures { result ≡ option_kind (key_of key.now) }
{
    key.listed_kind().unwrap_or(Kind::Hex)
}

/// The value of an option as a setting of this kind: a text loses the zero bytes at its end.
fn option_bytes(kind: Kind, bytes: &[u8]) -> &[u8]
    ensures { result.now ≡ option_bytes kind bytes.now }
{
    match kind {
        Kind::Str => without_nulls(bytes),
        _ => bytes,
    }
}

fn put_addresses(
    alloc: Global,
    block: &[u8],
    yours: Ip4,
    next: Ip4,
    to: &mut Vec<Setting>,
) -> Result<(), NoMemory>
    ensures { OnOk result (to.new.items ≡ to.old.items
        ++ address_settings block.now yours.0 next.0) }
{
    put_address(alloc, block, b"ip", yours, to)?;
    if next.0 == 0 {
        return Ok(());
    }
    put_address(alloc, block, b"next-server", next, to)
}

fn put_address(
    alloc: Global,
    block: &[u8],
    name: &[u8],
    address: Ip4,
    to: &mut Vec<Setting>,
) -> Result<(), NoMemory>
    ensures { OnOk result (to.new.items ≡ to.old.items
        ++ address_setting block.now name.now address.0 ∷ []) }
{
    let bytes = address.0.to_be_bytes();
    let setting = Setting::new(alloc, block, &Key::Free(name), Kind::Ipv4, &bytes)?;
    to.push(setting)?;
    Ok(())
}
