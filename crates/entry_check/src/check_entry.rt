// An entry point: its words in order, each of its lists, and the sampling pairs among its resources.
ghost use Rattle.std.specs.Prelude.{◌≡◌, ℕ, Bool, ◌+◌, ◌^◌, ◌<◌, ◌≤◌, length, take, drop, IfSome, slice_index_or};
ghost use Rattle.std.specs.Bool.{then_some};
ghost use Rattle.word.specs.Words.{content_of};
ghost use Rattle.word.specs.Parse.{one, several, behind, rest_of};
ghost use Rattle.interface.specs.Format.{of_word, head_well_formed, topology_well_formed, counts_well_formed, index_well_formed, read_workgroup, read_mesh, contents, read_entry_point};
ghost use Rattle.entry_check.specs.declared.role.Role.TheVariants.{Other};
ghost use Rattle.entry_check.specs.Inner.Walks.{roles_of, pair_by_roles, role_table, pack_resources, varying_lists_behind, lists_behind, parts_behind};

use crate::check_names::name_next;
use crate::check_varyings::varyings_next;
use crate::role::Role;

// Whether a word is the first of an entry point: a stage, 1 to 64 bytes of name, and two marks.
fn head_well_formed(w: u32) -> bool
    ensures { result ≡ head_well_formed w }
{
    let name_bytes = w / 0x1_0000 % 0x80;
    word::kind(w) == 7
        && w / 0x100_0000 % 8 < 5
        && w / 0x80_0000 % 2 == 0
        && 1 <= name_bytes
        && name_bytes <= 64
        && w / 4 % 0x4000 == 0
}

fn topology_well_formed(w: u32) -> bool
    ensures { result ≡ topology_well_formed w }
{
    word::kind(w) == 10 && w % 0x800_0000 < 5
}

// Whether a word holds the four counts of an entry point.
fn counts_well_formed(w: u32) -> bool
    ensures { result ≡ counts_well_formed w }
{
    word::kind(w) == 15 && w / 0x100_0000 % 8 == 0
}

// The position behind so many words that pass a test.
fn words_next<F: Fn(u32) -> bool>(body: &[u32], from: usize, n: u32, test: F) -> Option<usize>
    requires in_bounds { from ≤ length body.now }
    requires callable { F.IsAlwaysCallable test }
    ensures rest { (passes : ℕ → Bool) → ((w : ℕ) (b : Bool) → w < 2 ^ 32 → F.post test w b → b ≡ passes w)
        → rest_of body.now result ≡ behind (several n (one passes) (drop from body.now)) }
    ensures end { IfSome result (λ next. (next ≤ length body.now) × (next ≡ from + n)) }
{
    let end = from + n as usize;
    let words = body.get(from..end)?;
    // not `all`: its functions hand on pairs with a pointer, which tools/board/build refuses
    for w in words {
        if !test(*w) {
            return None;
        }
    }
    Some(end)
}

// The position behind so many words of a kind.
pub fn kinds_next(body: &[u32], from: usize, n: u32, kind: u32) -> Option<usize>
    requires { from ≤ length body.now }
    ensures rest { rest_of body.now result ≡ behind (several n (one (of_word kind)) (drop from body.now)) }
    ensures end { IfSome result (λ next. (next ≤ length body.now) × (next ≡ from + n)) }
{
    words_next(body, from, n, |w| word::kind(w) == kind)
}

fn workgroup_next(body: &[u32], at: usize) -> Option<usize>
    requires { at ≤ length body.now }
    ensures rest { rest_of body.now result ≡ behind (read_workgroup (drop at body.now)) }
    ensures end { IfSome result (λ next. next ≤ length body.now) }
{
    kinds_next(body, at, 3, 8)
}

// The position behind a mesh record, if one is marked.
fn mesh_next(body: &[u32], at: usize, marked: bool) -> Option<usize>
    requires { at ≤ length body.now }
    ensures rest { rest_of body.now result ≡ behind (read_mesh marked (drop at body.now)) }
    ensures end { IfSome result (λ next. next ≤ length body.now) }
{
    if !marked {
        return Some(at);
    }
    let topology = kinds_next(body, at, 2, 10)?;
    if !topology_well_formed(word::word(body, topology)) {
        return None;
    }
    Some(topology + 1)
}

// The role at an index of a table; past the end there is none.
fn role_at(table: &[Role; 128], index: usize) -> Role
    ensures { result ≡ slice_index_or table.now index Other }
{
    if index < table.len() {
        table[index]
    } else {
        Role::Other
    }
}

// Whether a word is a pair of a listed texture and a listed sampler.
fn pair_well_formed(w: u32, table: &[Role; 128]) -> bool
    ensures { result ≡ pair_by_roles table.now w }
{
    word::kind(w) == 5
        && w / 0x1_0000 % 0x800 == 0
        && matches!(role_at(table, (w / 0x100 % 0x100) as usize), Role::Texture)
        && matches!(role_at(table, (w % 0x100) as usize), Role::Sampler)
}

// The position behind so many pairs.
fn pairs_next(body: &[u32], from: usize, n: u32, table: &[Role; 128]) -> Option<usize>
    requires { from ≤ length body.now }
    ensures rest { rest_of body.now result ≡ behind (several n (one (pair_by_roles table.now)) (drop from body.now)) }
    ensures end { IfSome result (λ next. next ≤ length body.now) }
{
    words_next(body, from, n, |w| pair_well_formed(w, table))
}

// The index that a word of kind 5 holds, if it is below a count.
fn index_of(w: u32, count: u32) -> Option<usize>
    requires { count ≤ 128 }
    ensures { result ≡ then_some (index_well_formed count w) (content_of w) }
{
    // One subtraction takes kind 5 off: a lower kind leaves nothing, and a higher one more than any count.
    // To test kind and content apart takes up to 2.6 % more cycles of a check.
    let index = w.checked_sub(0x2800_0000)?;
    (index < count).then_some(index as usize)
}

// The position behind the inputs and the outputs of an entry point.
fn varying_lists_next(body: &[u32], at: usize, counts: u32) -> Option<usize>
    requires { at ≤ length body.now }
    ensures rest { rest_of body.now result ≡ varying_lists_behind counts (drop at body.now) }
    ensures end { IfSome result (λ next. next ≤ length body.now) }
{
    let outputs = varyings_next(body, at, counts / 0x40 % 0x40, 4)?;
    varyings_next(body, outputs, counts % 0x40, 5)
}

// The words of a pack before the closing one, how many resources they list, and the role of each.
#[derive(Clone, Copy)]
pub struct Pack<'a> {
    pub body: &'a [u32],
    pub count: u32,
    pub roles: &'a [Role; 128],
    pub ghost few: { count ≤ 128 },
    pub ghost counted: { length (pack_resources count body.now) ≡ count },
    pub ghost told: { roles.now ≡ role_table (pack_resources count body.now) },
}

impl Pack<'_> {
    // The position behind so many indexes of resources. Those that are listed get their role into a table.
    fn indexes_next(&self, from: usize, n: u32, table: &mut [Role; 128]) -> Option<usize>
        requires { from ≤ length self.now.body.now }
        ensures rest { rest_of self.now.body.now result
            ≡ behind (several n (one (index_well_formed self.now.count)) (drop from self.now.body.now)) }
        ensures end { IfSome result (λ next. next ≤ length self.now.body.now) }
        ensures listed { IfSome result (λ _. table.new
            ≡ roles_of self.now.roles.now (contents (take n (drop from self.now.body.now))) table.old) }
    {
        let end = from + n as usize;
        let words = self.body.get(from..end)?;
        for w in words {
            let index = index_of(*w, self.count)?;
            table[index] = self.roles[index];
        }
        Some(end)
    }

    // The position behind the four lists of an entry point. The table has the role of each resource in a pair.
    fn lists_next(&self, at: usize, counts: u32) -> Option<usize>
        requires { at ≤ length self.now.body.now }
        ensures rest { rest_of self.now.body.now result
            ≡ lists_behind (pack_resources self.now.count self.now.body.now) counts (drop at self.now.body.now) }
        ensures end { IfSome result (λ next. next ≤ length self.now.body.now) }
    {
        let mut table = [Role::Other; 128];
        let pairs = self.indexes_next(at, counts / 0x4_0000 % 0x40, &mut table)?;
        let inputs = pairs_next(self.body, pairs, counts / 0x1000 % 0x40, &table)?;
        varying_lists_next(self.body, inputs, counts)
    }

    // The position behind an entry point whose payload stands at a position.
    fn parts_next(&self, at: usize, head: u32) -> Option<usize>
        requires { at ≤ length self.now.body.now }
        ensures rest { rest_of self.now.body.now result
            ≡ parts_behind (pack_resources self.now.count self.now.body.now) head (drop at self.now.body.now) }
        ensures end { IfSome result (λ next. next ≤ length self.now.body.now) }
    {
        if !varying::payload_well_formed(word::word(self.body, at)) {
            return None;
        }
        let counts = mesh_next(self.body, at + 1, head / 2 % 2 == 1)?;
        let w = word::word(self.body, counts);
        if !counts_well_formed(w) {
            return None;
        }
        self.lists_next(counts + 1, w)
    }

    // The position behind an entry point, if it is well formed.
    pub fn entry_point_next(&self, at: usize) -> Option<usize>
        requires { at ≤ length self.now.body.now }
        ensures rest { rest_of self.now.body.now result
            ≡ behind (read_entry_point (pack_resources self.now.count self.now.body.now) (drop at self.now.body.now)) }
        ensures end { IfSome result (λ next. next ≤ length self.now.body.now) }
    {
        let head = word::word(self.body, at);
        if !head_well_formed(head) {
            return None;
        }
        let workgroup = name_next(self.body, at + 1, head / 0x1_0000 % 0x80)?;
        let payload = workgroup_next(self.body, workgroup)?;
        self.parts_next(payload, head)
    }
}
