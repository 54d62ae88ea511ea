// The check of a module pack.
ghost use Rattle.std.specs.Prelude.{◌≡◌, ◌++◌, ◌+◌, ◌<◌, ◌≤◌, length, take, drop, IfSome};
ghost use Rattle.word.specs.Words.{word_at, bits};
ghost use Rattle.word.specs.Parse.{several, behind, rest_of};
ghost use Rattle.bindings.specs.Format.{read_resource};
ghost use Rattle.interface.specs.Format.{edition_well_formed, totals_well_formed, read_entry_point, read_pack, damaged, decode, decoded_number};
ghost use Rattle.interface.specs.Inner.Parts.{resource_count, Offsets, Heads};
ghost use Rattle.entry_check.specs.Inner.Walks.{listed, pair_roles, pack_resources};
ghost use Rattle.pack_check.specs.Errors.{pack_number, pack_refusal};
ghost use Rattle.pack_check.specs.Inner.Records.{role_of, Headed, entries_behind, records_behind, Stops, EntryStops};
ghost use Rattle.pack_check.specs.Inner.Positions.{over, positions, entries_from, resources_noted, entries_noted, resource_positions, entry_positions};

use bindings::resource_words::resource_next;
use entry_check::check_entry::{Pack, kinds_next};
use entry_check::check_names::names_distinct;
use entry_check::role::Role;
use word::refusal::{Number, Refusal};

// Why a pack is refused: its length, total or closing sum, or what its words say.
#[derive(Clone, Copy, Debug, PartialEq, Eq)]
pub enum PackError {
    Damaged,
    Malformed,
}

impl From<PackError> for Refusal {
    ghost from_gives = { λ e r. r ≡ pack_refusal e };

    fn from(error: PackError) -> Self {
        match error {
            PackError::Damaged => Refusal::plain(Number::DamagedPack),
            PackError::Malformed => Refusal::plain(Number::MalformedPack),
        }
    }
}

// What a resource can be in a sampling pair, by its type word.
fn role(w: u32) -> Role
    ensures { result ≡ role_of w }
{
    match w / 0x80_0000 % 16 {
        1 => Role::Sampler,
        2 | 3 | 5 => Role::Texture,
        _ => Role::Other,
    }
}

// The position behind so many resources. The tables get the role and the position of each.
fn resources_next(
    body: &[u32],
    from: usize,
    n: usize,
    roles: &mut [Role; 128],
    offsets: &mut [u16],
) -> Option<usize>
    requires in_bounds { (1 ≤ from) × (from ≤ length body.now) × (length body.now ≤ 4096) × (n ≤ 128) }
    requires room { (length roles.old ≡ 128) × (128 ≤ length offsets.old) }
    ensures rest { rest_of body.now result ≡ behind (several n read_resource (drop from body.now)) }
    ensures end { IfSome result (λ next. next ≤ length body.now) }
    ensures roles_after { IfSome result (λ _. roles.new ≡ pair_roles (listed (several n read_resource (drop from body.now))) ++ drop n roles.old) }
    ensures stops { IfSome result (λ _. Stops read_resource body.now from n offsets.new) }
    ensures offsets_after { offsets.new ≡ over (positions read_resource body.now n from) offsets.old }
{
    let mut at = from;
    for i in 0..n {
        let next = resource_next(body, at)?;
        roles[i] = role(word::word(body, at + 1));
        offsets[i] = at as u16;
        at = next;
    }
    Some(at)
}

// The position behind so many entry points. The list gets the position of each.
fn entry_points_next(pack: &Pack, from: usize, n: usize, heads: &mut [u16]) -> Option<usize>
    requires in_bounds { (1 ≤ from) × (from ≤ length pack.now.body.now) × (length pack.now.body.now ≤ 4096) × (n ≤ 16) }
    requires room { 16 ≤ length heads.old }
    ensures rest { rest_of pack.now.body.now result
        ≡ behind (several n (read_entry_point (pack_resources pack.now.count pack.now.body.now)) (drop from pack.now.body.now)) }
    ensures end { IfSome result (λ next. next ≤ length pack.now.body.now) }
    ensures headed { IfSome result (λ _. Headed pack.now.body.now (take n heads.new)
        (listed (several n (read_entry_point (pack_resources pack.now.count pack.now.body.now)) (drop from pack.now.body.now)))) }
    ensures stops { IfSome result (λ _. Stops (read_entry_point (pack_resources pack.now.count pack.now.body.now)) pack.now.body.now from n heads.new) }
    ensures heads_after { heads.new
        ≡ over (positions (read_entry_point (pack_resources pack.now.count pack.now.body.now)) pack.now.body.now n from) heads.old }
{
    let mut at = from;
    for i in 0..n {
        let next = pack.entry_point_next(at)?;
        heads[i] = at as u16;
        at = next;
    }
    Some(at)
}

// The position behind entry points whose stages and names differ. The table gets the position of each.
fn entries_next(pack: &Pack, at: usize, n: usize, heads: &mut [u16]) -> Option<usize>
    requires in_bounds { (1 ≤ at) × (at ≤ length pack.now.body.now) × (length pack.now.body.now ≤ 4096) × (n ≤ 16) }
    requires room { 16 ≤ length heads.old }
    ensures rest { rest_of pack.now.body.now result
        ≡ entries_behind (pack_resources pack.now.count pack.now.body.now) n (drop at pack.now.body.now) }
    ensures end { IfSome result (λ next. next ≤ length pack.now.body.now) }
    ensures stops { IfSome result (λ _. Stops (read_entry_point (pack_resources pack.now.count pack.now.body.now)) pack.now.body.now at n heads.new) }
    ensures heads_after { heads.new
        ≡ over (positions (read_entry_point (pack_resources pack.now.count pack.now.body.now)) pack.now.body.now n at) heads.old }
{
    let end = entry_points_next(pack, at, n, heads)?;
    if !names_distinct(pack.body, &heads[..n]) {
        return None;
    }
    Some(end)
}

fn edition_well_formed(w: u32) -> bool
    ensures { result ≡ edition_well_formed w }
{
    word::kind(w) == 1 && w / 0x1_0000 % 0x800 == 1
}

// Whether a word holds the numbers of resources, at most 128, and of entry points, at most 16.
fn totals_well_formed(w: u32) -> bool
    ensures { result ≡ totals_well_formed w }
{
    word::kind(w) == 2 && w / 0x1_0000 % 0x800 <= 128 && w % 0x1_0000 <= 16
}

// The position behind the resources and entry points of a pack. The tables get the position of each.
fn records_next(body: &[u32], totals: u32, offsets: &mut [u16], heads: &mut [u16]) -> Option<usize>
    requires in_bounds { (15 ≤ length body.now) × (length body.now ≤ 4096) × (bits 26 16 totals ≤ 128) × (bits 15 0 totals ≤ 16) }
    requires room { (128 ≤ length offsets.old) × (16 ≤ length heads.old) }
    ensures rest { rest_of body.now result ≡ records_behind totals (drop 15 body.now) }
    ensures end { IfSome result (λ next. next ≤ length body.now) }
    ensures stops { IfSome result (λ _. Stops read_resource body.now 15 (bits 26 16 totals) offsets.new) }
    ensures entry_stops { IfSome result (λ _. EntryStops body.now totals heads.new) }
    ensures offsets_after { offsets.new ≡ over (positions read_resource body.now (bits 26 16 totals) 15) offsets.old }
    ensures heads_after { heads.new ≡ over (entries_from totals body.now) heads.old }
{
    let count = totals / 0x1_0000 % 0x800;
    let mut roles = [Role::Other; 128];
    let entries = resources_next(body, 15, count as usize, &mut roles, offsets)?;
    let pack = Pack {
        body,
        count,
        roles: &roles,
    };
    entries_next(&pack, entries, (totals % 0x1_0000) as usize, heads)
}

// The position behind a pack, if it is well formed. The tables get the position of each record.
fn pack_next(body: &[u32], offsets: &mut [u16], heads: &mut [u16]) -> Option<usize>
    requires { (2 ≤ length body.now) × (length body.now ≤ 4096) × (128 ≤ length offsets.old) × (16 ≤ length heads.old) }
    ensures rest { rest_of body.now result ≡ behind (read_pack body.now) }
    ensures end { IfSome result (λ next. next ≤ length body.now) }
    ensures stops { IfSome result (λ _. Stops read_resource body.now 15 (resource_count body.now) offsets.new) }
    ensures entry_stops { IfSome result (λ _. EntryStops body.now (word_at body.now 1) heads.new) }
    ensures offsets_after { offsets.new ≡ over (resources_noted body.now) offsets.old }
    ensures heads_after { heads.new ≡ over (entries_noted body.now) heads.old }
{
    if !edition_well_formed(word::word(body, 0)) {
        return None;
    }
    let totals = word::word(body, 1);
    if !totals_well_formed(totals) {
        return None;
    }
    kinds_next(body, 2, 13, 3)?;
    records_next(body, totals, offsets, heads)
}

// Whether a pack has under 16 or over 4,096 words, a total unlike its length, or another sum than its closing word.
fn is_damaged(pack: &[u32]) -> bool
    ensures { result ≡ damaged pack.now }
{
    let n = pack.len();
    if n < 16 || 4096 < n {
        return true;
    }
    (word::word(pack, 0) % 0x1_0000) as usize != n
        || word::word(pack, n - 1) != word::closing_sum(pack)
}

// The check of a module pack. The tables get the positions of records, up to the first that is malformed.
pub fn index_pack(pack: &[u32], offsets: &mut [u16], heads: &mut [u16]) -> Result<(), PackError>
    requires { (128 ≤ length offsets.old) × (16 ≤ length heads.old) }
    ensures number { pack_number result ≡ decoded_number (decode pack.now) }
    ensures offsets { Offsets pack.now offsets.new }
    ensures heads { Heads pack.now heads.new }
    ensures offsets_after { offsets.new ≡ over (resource_positions pack.now) offsets.old }
    ensures heads_after { heads.new ≡ over (entry_positions pack.now) heads.old }
{
    if is_damaged(pack) {
        return Err(PackError::Damaged);
    }
    let last = pack.len() - 1;
    if pack_next(&pack[..last], offsets, heads) != Some(last) {
        return Err(PackError::Malformed);
    }
    Ok(())
}

// The same check alone.
pub fn check_pack(pack: &[u32]) -> Result<(), PackError>
    ensures { pack_number result ≡ decoded_number (decode pack.now) }
{
    let mut offsets: [u16; 128] = [0; 128];
    let mut heads: [u16; 16] = [0; 16];
    index_pack(pack, &mut offsets, &mut heads)
}
