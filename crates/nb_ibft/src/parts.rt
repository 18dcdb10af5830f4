//! The parts of a table, before its texts.

ghost use Rattle.std.specs.Prelude.{◌≡◌, ℕ, ◌+◌, ◌*◌, ◌≤◌, ◌<◌, ◌^◌, ◌++◌, [], length};
ghost use Rattle.nb_ibft.specs.Infos.{HasShortTexts, IsShortText, AreShortTexts, target_texts, targets_texts};
ghost use Rattle.nb_ibft.specs.Tables.{kept, texts_joined, reference, references, address_text, mark, place_or_zero, target_places, table_header_text, control_text, initiator_text, own_text, servers_text, addresses_text, host_text, portal_text, target_login_text, targets_text, texts_place, host_place, disks_place, parts_text, total_length};
ghost use Rattle.nb_ibft.specs.Views.{lent_info, lent_target, lent_targets};

use crate::lent::{LentInfo, LentTarget, LentTargets};
use crate::texts::kept_len;
use arrayvec::ArrayVec;
use nb_wire::Ip4;

/// Puts the header.
fn put_header(total: u32, checksum: u8, to: &mut ArrayVec<u8, 400>)
    requires { to.old.items ≡ [] }
    ensures value { to.new.items ≡ table_header_text total checksum }
    ensures size { length to.new.items ≡ 48 }
{
    put(b"iBFT", to);
    put(&total.to_le_bytes(), to);
    put(&[1, checksum], to);
    put(b"NETBT NETBOOT ", to);
    put(&[0; 24], to);
}

/// Puts the places of the other parts.
fn put_control(targets: &LentTargets<'_>, to: &mut ArrayVec<u8, 400>)
    requires { length to.old.items ≡ 48 }
    ensures value { to.new.items ≡ to.old.items ++ control_text (lent_targets targets.now) }
    ensures size { length to.new.items ≡ 80 }
{
    put(&[1, 1, 18, 0, 0, 0, 0, 0, 80, 0, 160, 0], to);
    put(&target_places(targets), to);
    put(&[0; 14], to);
}

/// Where the disks' parts stand: at 272 and at 336, where they are there.
fn target_places(targets: &LentTargets<'_>) -> [u8; 6]
    ensures { result ≡ target_places (lent_targets targets.now) }
{
    match targets {
        LentTargets::Neither => [0; 6],
        LentTargets::One(_) => [16, 1, 0, 0, 0, 0],
        LentTargets::Two(_, _) => [16, 1, 0, 0, 80, 1],
    }
}

/// Puts the initiator's part, whose name stands at this place.
fn put_initiator(at: u16, name: &[u8], to: &mut ArrayVec<u8, 400>)
    requires short { IsShortText name.now }
    requires room { length to.old.items ≡ 80 }
    ensures value { to.new.items ≡ to.old.items ++ initiator_text at name.now }
    ensures size { length to.new.items ≡ 160 }
{
    put(&[2, 1, 74, 0, 0, 3], to);
    put(&[0; 64], to);
    put_reference(at, name, to);
    put(&[0; 6], to);
}

impl LentInfo<'_> {
    /// Puts all parts, with this byte in the place of the checksum.
    pub(crate) fn put_parts(&self, checksum: u8, to: &mut ArrayVec<u8, 400>)
        requires short { HasShortTexts (lent_info self.now) }
        requires empty { to.old.items ≡ [] }
        ensures value { to.new.items ≡ table_header_text (total_length (lent_info self.now)) checksum ++ parts_text (lent_info self.now) }
    {
        put_header(self.total_length(), checksum, to);
        put_control(&self.targets, to);
        put_initiator(self.texts_place(), self.initiator, to);
        self.put_addresses(to);
        put(&self.mac.0, to);
        put_host(self.host_place(), self.host, to);
        self.targets.put_parts(self.disks_place(), to);
    }

    /// Where the texts begin.
    pub(crate) fn texts_place(&self) -> u16
        ensures value { result ≡ texts_place (lent_info self.now) }
        ensures bound { result ≤ 400 }
    {
        match self.targets {
            LentTargets::Neither => 272,
            LentTargets::One(_) => 336,
            LentTargets::Two(_, _) => 400,
        }
    }

    /// Where the host's name stands.
    fn host_place(&self) -> u16
        requires { HasShortTexts (lent_info self.now) }
        ensures value { result ≡ host_place (lent_info self.now) }
        ensures bound { result ≤ 1489 }
    {
        self.texts_place() + kept_len(self.initiator) as u16
    }

    /// Where the disks' texts begin.
    fn disks_place(&self) -> u16
        requires { HasShortTexts (lent_info self.now) }
        ensures value { result ≡ disks_place (lent_info self.now) }
        ensures bound { result ≤ 2578 }
    {
        self.host_place() + kept_len(self.host) as u16
    }

    /// How many bytes the table has.
    fn total_length(&self) -> u32
        requires { HasShortTexts (lent_info self.now) }
        ensures { result ≡ total_length (lent_info self.now) }
    {
        u32::from(self.disks_place()) + u32::from(self.targets.texts_len())
    }

    /// Puts the interface's part as far as its hardware address.
    fn put_addresses(&self, to: &mut ArrayVec<u8, 400>)
        requires { length to.old.items ≡ 160 }
        ensures value { to.new.items ≡ to.old.items ++ addresses_text (lent_info self.now) }
        ensures size { length to.new.items ≡ 250 }
    {
        self.put_own(to);
        self.put_servers(to);
        put(&[0, 0], to);
    }

    /// Puts the interface's own address.
    fn put_own(&self, to: &mut ArrayVec<u8, 400>)
        requires { length to.old.items ≡ 160 }
        ensures value { to.new.items ≡ to.old.items ++ own_text (lent_info self.now) }
        ensures size { length to.new.items ≡ 184 }
    {
        put(&[3, 1, 102, 0, 0, 3], to);
        put_address(self.address, to);
        put(&[self.prefix, 0], to);
    }

    /// Puts the addresses of others.
    fn put_servers(&self, to: &mut ArrayVec<u8, 400>)
        requires { length to.old.items ≡ 184 }
        ensures value { to.new.items ≡ to.old.items ++ servers_text (lent_info self.now) }
        ensures size { length to.new.items ≡ 248 }
    {
        put_address(self.gateway, to);
        put_address(self.first_dns, to);
        put_address(self.second_dns, to);
        put_address(self.dhcp_server, to);
    }
}

/// Puts the rest of the interface's part, whose host name stands at this place.
fn put_host(at: u16, host: &[u8], to: &mut ArrayVec<u8, 400>)
    requires short { IsShortText host.now }
    requires room { length to.old.items ≡ 256 }
    ensures value { to.new.items ≡ to.old.items ++ host_text at host.now }
    ensures size { length to.new.items ≡ 272 }
{
    put(&[0, 0], to);
    put_reference(at, host, to);
    put(&[0; 10], to);
}

impl LentTargets<'_> {
    /// Puts the disks' parts, whose texts stand from this place on.
    fn put_parts(&self, at: u16, to: &mut ArrayVec<u8, 400>)
        requires short { AreShortTexts (targets_texts (lent_targets self.now)) }
        requires place { at ≤ 2578 }
        requires room { length to.old.items ≡ 272 }
        ensures { to.new.items ≡ to.old.items ++ targets_text 0 at (lent_targets self.now) }
    {
        match self {
            LentTargets::Neither => {}
            LentTargets::One(one) => one.put_part(0, at, to),
            LentTargets::Two(one, two) => {
                one.put_part(0, at, to);
                two.put_part(1, at + one.texts_len(), to);
            }
        }
    }

    /// How many bytes the disks' texts take.
    fn texts_len(&self) -> u16
        requires { AreShortTexts (targets_texts (lent_targets self.now)) }
        ensures { result ≡ length (texts_joined (targets_texts (lent_targets self.now))) }
    {
        match self {
            LentTargets::Neither => 0,
            LentTargets::One(one) => one.texts_len(),
            LentTargets::Two(one, two) => one.texts_len() + two.texts_len(),
        }
    }
}

impl LentTarget<'_> {
    /// Puts a disk's part, whose texts stand from this place on.
    fn put_part(&self, index: u8, at: u16, to: &mut ArrayVec<u8, 400>)
        requires short { AreShortTexts (target_texts (lent_target self.now)) }
        requires place { at ≤ 8023 }
        requires room { length to.old.items ≤ 336 }
        ensures value { to.new.items ≡ to.old.items ++ (portal_text index (lent_target self.now)
            ++ (self.now.lun ++ target_login_text at (lent_target self.now))) }
        ensures size { length to.new.items ≡ length to.old.items + 64 }
    {
        self.put_portal(index, to);
        put(&self.lun, to);
        self.put_login(at, to);
    }

    /// Puts a disk's address and port.
    fn put_portal(&self, index: u8, to: &mut ArrayVec<u8, 400>)
        requires { length to.old.items ≤ 336 }
        ensures value { to.new.items ≡ to.old.items ++ portal_text index (lent_target self.now) }
        ensures size { length to.new.items ≡ length to.old.items + 24 }
    {
        put(&[4, 1, 54, 0, index, 3], to);
        put_address(self.address, to);
        put(&self.port.to_le_bytes(), to);
    }

    /// Puts how the client logs in, with texts from this place on.
    fn put_login(&self, at: u16, to: &mut ArrayVec<u8, 400>)
        requires short { AreShortTexts (target_texts (lent_target self.now)) }
        requires place { at ≤ 8023 }
        requires room { length to.old.items ≤ 368 }
        ensures value { to.new.items ≡ to.old.items ++ target_login_text at (lent_target self.now) }
        ensures size { length to.new.items ≡ length to.old.items + 32 }
    {
        put(&[self.chap, 0], to);
        self.put_references(at, to);
        put(&[0; 10], to);
    }

    /// Puts where a disk's texts stand, the first at this place.
    fn put_references(&self, at: u16, to: &mut ArrayVec<u8, 400>)
        requires short { AreShortTexts (target_texts (lent_target self.now)) }
        requires place { at ≤ 8023 }
        requires room { length to.old.items ≤ 370 }
        ensures value { to.new.items ≡ to.old.items ++ references at (target_texts (lent_target self.now)) }
        ensures size { length to.new.items ≡ length to.old.items + 20 }
    {
        put_reference(at, self.texts.name, to);
        let user = at + kept_len(self.texts.name) as u16;
        put_reference(user, self.texts.user, to);
        let secret = user + kept_len(self.texts.user) as u16;
        put_reference(secret, self.texts.secret, to);
        let reverse_user = secret + kept_len(self.texts.secret) as u16;
        put_reference(reverse_user, self.texts.reverse_user, to);
        let reverse_secret = reverse_user + kept_len(self.texts.reverse_user) as u16;
        put_reference(reverse_secret, self.texts.reverse_secret, to);
    }

    /// How many bytes a disk's texts take.
    fn texts_len(&self) -> u16
        requires { AreShortTexts (target_texts (lent_target self.now)) }
        ensures value { result ≡ length (texts_joined (target_texts (lent_target self.now))) }
        ensures bound { result ≤ 5445 }
    {
        let named = kept_len(self.texts.name)
            + kept_len(self.texts.user)
            + kept_len(self.texts.secret);
        (named + kept_len(self.texts.reverse_user) + kept_len(self.texts.reverse_secret)) as u16
    }
}

/// Puts where a text stands: its length and its place, or zeros where it is empty.
fn put_reference(at: u16, text: &[u8], to: &mut ArrayVec<u8, 400>)
    requires short { IsShortText text.now }
    requires room { length to.old.items ≤ 396 }
    ensures value { to.new.items ≡ to.old.items ++ reference at text.now }
    ensures size { length to.new.items ≡ length to.old.items + 4 }
{
    put(&(text.len() as u16).to_le_bytes(), to);
    put(&place(text, at).to_le_bytes(), to);
}

/// A text's place; 0 where it is empty.
fn place(text: &[u8], at: u16) -> u16
    ensures { result ≡ place_or_zero text.now at }
{
    if text.is_empty() { 0 } else { at }
}

/// Puts an address.
fn put_address(address: Ip4, to: &mut ArrayVec<u8, 400>)
    requires { length to.old.items ≤ 384 }
    ensures value { to.new.items ≡ to.old.items ++ address_text address.0 }
    ensures size { length to.new.items ≡ length to.old.items + 16 }
{
    put(&address_bytes(address), to);
}

/// An address among those of 16 bytes (RFC 4291, section 2.5.5.2); zeros where there is none.
fn address_bytes(address: Ip4) -> [u8; 16]
    ensures { result ≡ address_text address.0 }
{
    let mark = mark(address);
    let [a, b, c, d] = address.0.to_be_bytes();
    [0, 0, 0, 0, 0, 0, 0, 0, 0, 0, mark, mark, a, b, c, d]
}

/// What stands before an address of four bytes.
fn mark(address: Ip4) -> u8
    ensures { result ≡ mark address.0 }
{
    if address.0 == 0 { 0 } else { 255 }
}

fn put(bytes: &[u8], to: &mut ArrayVec<u8, 400>)
    requires { length to.old.items + length bytes.now ≤ 400 }
    ensures value { to.new.items ≡ to.old.items ++ bytes.now }
    ensures size { length to.new.items ≡ length to.old.items + length bytes.now }
{
    let _ = to.try_extend_from_slice(bytes);
}
