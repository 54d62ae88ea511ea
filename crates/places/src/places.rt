// Places, each in the first word of a record of WIDTH words.
ghost use Rattle.std.specs.Prelude.{◌≡◌, true, ◌+◌, ◌*◌, ◌<◌, ◌≤◌, ◌^◌, length};
ghost use Rattle.bindings.specs.Format.{place_of};
ghost use Rattle.places.specs.Places.{place_from, place_in, distinct_places, found_below};
ghost use Rattle.word.specs.Lists.{every};
ghost use Rattle.word.specs.Words.{kind_of};
ghost use Rattle.places.specs.Records.{each};
ghost use Rattle.places.specs.Inner.Begins.{place_first};
ghost use Rattle.places.specs.Inner.Marks.{slot, marked, bit_of};

// Where the place that a word's content tells has its mark.
fn slot_of(content: u32) -> usize
    ensures value { result ≡ slot (place_of content) }
    ensures upper_bound { result < 1024 }
{
    ((content % 1024 + 128 * (content / 0x80_0000 % 8)) % 1024) as usize
}

// Which of 64 bits the place that a word's content tells has.
fn bit_of(content: u32) -> u32
    ensures value { result ≡ bit_of (place_of content) }
    ensures upper_bound { result < 64 }
{
    (content % 64 + content / 0x10_0000) % 64
}

// As many records of a width, from the start of words on.
#[derive(Clone, Copy)]
pub struct Records<'a, const WIDTH: usize> {
    pub words: &'a [u32],
    pub n: usize,
    pub ghost few: { n < 2 ^ 32 },
    pub ghost wide: { (0 < WIDTH) × (WIDTH ≤ 4) },
    pub ghost within: { WIDTH * n ≤ length words.now },
}

// Loops count in 32 bits: the board's build keeps a usize in 64, which it compares in two steps.
impl<const WIDTH: usize> Records<'_, WIDTH> {
    ghost use Rattle.places.specs.Inner.PlacesOf.{places_of};

    // Which record has the place of a word, where each begins with a place's word: whole words are compared.
    pub fn find_word(&self, place: u32) -> Option<usize>
        requires place_words { (kind_of place ≡ 4) × (each WIDTH place_first self.now.n self.now.words.now ≡ true) }
        ensures position { result ≡ place_from (place_of place) (places_of self.now) 0 }
        ensures below { found_below self.now.n result ≡ true }
    {
        for i in 0..self.n as u32 {
            let index = i as usize;
            if self.words[WIDTH * index] == place {
                return Some(index);
            }
        }
        None
    }

    // The same by a word's content, among distinct places. The record at a likely position is tried first.
    pub fn find_near(&self, content: u32, near: usize) -> Option<usize>
        requires place_words { (content < 2 ^ 27) × (each WIDTH place_first self.now.n self.now.words.now ≡ true) }
        requires distinct { distinct_places (places_of self.now) ≡ true }
        ensures position { result ≡ place_from (place_of content) (places_of self.now) 0 }
        ensures below { found_below self.now.n result ≡ true }
    {
        if near < self.n {
            if self.words[WIDTH * near] % 0x800_0000 == content {
                return Some(near);
            }
        }
        self.find_word(0x2000_0000 + content)
    }

    // Whether one of the records has the place that a word's content tells. The last is tried first: an index that falls is compared with 0, which
    // takes an instruction less a record.
    fn has_place(&self, content: u32) -> bool
        requires content_of_word { content < 2 ^ 27 }
        ensures { result ≡ place_in (place_of content) (places_of self.now) }
    {
        for i in (0..self.n as u32).rev() {
            if self.words[WIDTH * i as usize] % 0x800_0000 == content {
                return true;
            }
        }
        false
    }

    // Whether a place is among those of records that all have their mark. Without a mark it is not.
    fn has_marked(&self, content: u32, marks: &[u8; 1024]) -> bool
        requires content_of_word { content < 2 ^ 27 }
        requires all_marked { every (marked marks.now) (places_of self.now) ≡ true }
        ensures { result ≡ place_in (place_of content) (places_of self.now) }
    {
        if marks[slot_of(content)] == 0 {
            return false;
        }
        self.has_place(content)
    }

    // Whether no two records have one place, from the last to the first: those behind have their mark.
    fn distinct_marked(&self) -> bool
        ensures { result ≡ distinct_places (places_of self.now) }
    {
        // bytes and no bools: an array of `false` is filled by a form that tools/board/build refuses
        let mut marks: [u8; 1024] = [0; 1024];
        for i in (0..self.n as u32).rev() {
            let content = self.words[WIDTH * i as usize] % 0x800_0000;
            let next = i as usize + 1;
            let behind = Records::<WIDTH> {
                words: &self.words[WIDTH * next..],
                n: self.n - next,
            };
            if behind.has_marked(content, &marks) {
                return false;
            }
            marks[slot_of(content)] = 1;
        }
        true
    }

    // Whether each record has a bit of its own. Then no two have one place.
    fn bits_differ(&self) -> bool
        ensures { result ≡ true → distinct_places (places_of self.now) ≡ true }
    {
        let mut mask: u64 = 0;
        for i in (0..self.n as u32).rev() {
            let bit = bit_of(self.words[WIDTH * i as usize] % 0x800_0000);
            if (mask >> bit) % 2 == 1 {
                return false;
            }
            mask |= 1 << bit;
        }
        true
    }

    // Whether no two records have one place. The places of a few mostly have bits that differ.
    pub fn distinct_places(&self) -> bool
        ensures { result ≡ distinct_places (places_of self.now) }
    {
        if self.n < 2 {
            return true;
        }
        if self.n <= 32 && self.bits_differ() {
            return true;
        }
        self.distinct_marked()
    }
}
