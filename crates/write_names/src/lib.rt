// What stands between the length of a record and its blocks: version, A and N, the input's names, and the made ones behind them.
#![tactic(auto)]

ghost use Rattle.std.specs.Prelude.{◌≡◌, ◌++◌, map, ◌+◌, ◌-◌, ◌*◌, ◌<◌, ◌≤◌, length, get_or, take, drop};
ghost use Rattle.record.specs.Record.{nm, plain};
ghost use Rattle.record.specs.Write.{be, join, name_bytes};
ghost use Rattle.record.specs.Sizes.{places_end};
ghost use Rattle.record.specs.Decode.{behind, name_end, names_count, names_end, record_from};
ghost use Rattle.read_fields.specs.Places.{places as all-places};
ghost use Rattle.numbering.specs.Made.{made_name, made_names};
ghost use Rattle.write_bytes.specs.Put.{Wrote, longest_text, most_made};
ghost use Rattle.read_layout.specs.Layout.{NamesAt};
ghost use Rattle.write_names.specs.Named.{text_length, Named, Short, longest_made, made_reach};

// Version, A and N, behind the four bytes of L.
pub fn put_record_head(out: &mut [u8], version: u8, args: u8, names: u16)
    ensures { Wrote out.old out.new 4 8 (be 1 version ++ (be 1 args ++ be 2 names)) }
{
    write_bytes::put_u8(out, 4, version);
    write_bytes::put_u8(out, 5, args);
    write_bytes::put_u16(out, 6, names);
}

// The input's names, the bytes from 8 to `end`; the place behind them.
pub fn copy_names(s: &[u8], out: &mut [u8], end: usize) -> usize
    requires { (8 ≤ end) × (end < places_end) }
    ensures { Wrote out.old out.new 8 result (take (end - 8) (drop 8 s.now)) × (result ≤ end) }
{
    write_bytes::copy_bytes(s, 8, end - 8, out, 8)
}

// ---- made names
// A record's bytes, and the table of the places of its names.
#[derive(Clone, Copy, PartialEq, Eq, Debug)]
pub struct Names<'a> {
    pub bytes: &'a [u8],
    pub places: &'a [u32],
    ghost names_there: { NamesAt bytes.now places.now (names_count bytes.now) },
}

impl<'a> Names<'a> {
    // x < names_count self.bytes.now is asked by three methods: x comes from a list of u16, so no type can say that it is below the count.
    // k < most_made by two, and by two of write_bytes: k counts the made names as they are written, so no type can say that it is below most_made.

    // The place of the name x, by the table, which has one of each name.
    fn place(self, x: u16) -> usize
        requires { x < names_count self.bytes.now }
        ensures { (result ≡ behind (name_end self.entry.bytes.now) 8 x) × (result < places_end) }
    {
        // as: the number fits, or u64 and usize have no From; try_from would give an error that cannot happen.
        self.places.get(usize::from(x)).map_or(0, |p| *p as usize)
    }

    // The name made with K = k of the name x; the place behind it.
    fn put_made_name(self, out: &mut [u8], at: usize, x: u16, k: u64) -> usize
        requires { (at + made_reach < all-places) × ((x < names_count self.bytes.now) × ((text_length self.bytes.now x ≤ longest_text)
            × (k < most_made))) }
        ensures { Wrote out.old out.new at result (name_bytes (made_name (plain (record_from self.entry.bytes.now)) k (nm x)))
            × (result ≤ at + longest_made) }
    {
        let p = self.place(x);
        let ty = read_fields::u8_at(self.bytes, p);
        let n = usize::from(read_fields::u8_at(self.bytes, p + 1));
        // Not by text_of, which asks that the text lies within the bytes: the contract does not.
        let text = write_bytes::part(self.bytes, p + 2, n);
        write_bytes::put_made(out, at, ty, text, k)
    }

    // The names made with K = 0, 1, .. of those in `made`; the place behind them.
    pub fn put_made_names(self, out: &mut [u8], at: usize, made: &[u16]) -> usize
        requires { (at < places_end) × ((length made.now ≤ most_made) × (Named made.now (length made.now) (names_count self.bytes.now)
            × Short self.bytes.now (names_count self.bytes.now))) }
        ensures { Wrote out.old out.new at result
            (join (map name_bytes (made_names (plain (record_from self.entry.bytes.now)) 0 (map nm made.now))))
            × (result ≤ at + longest_made * length made.now) }
    {
        let mut p = at;
        for (k, x) in made.iter().enumerate() {
            p = self.put_made_name(out, p, *x, k as u64);
        }
        p
    }

    // How many bytes the name made with K = k of the name x has: the text and the digits of k, and 7 for type, length, `_` and `_lvn`.
    fn made_name_size(self, x: u16, k: u64) -> usize
        requires { (x < names_count self.bytes.now) × ((k < most_made) × (names_end self.bytes.now ≤ length self.bytes.now)) }
        ensures { (result ≡ length (name_bytes (made_name (plain (record_from self.entry.bytes.now)) k (nm x)))) × (result ≤ made_reach) }
    {
        let p = self.place(x);
        7 + usize::from(read_fields::u8_at(self.bytes, p + 1)) + write_bytes::count_digits(k)
    }

    // How many bytes the names made with K = 0, 1, .. of those in `made` have.
    pub fn made_size(self, made: &[u16]) -> usize
        requires { (length made.now ≤ most_made) × (Named made.now (length made.now) (names_count self.bytes.now)
            × (names_end self.bytes.now ≤ length self.bytes.now)) }
        ensures { (result ≡ length (join (map name_bytes (made_names (plain (record_from self.entry.bytes.now)) 0 (map nm made.now)))))
            × (result ≤ made_reach * length made.now) }
    {
        let mut size = 0;
        for (k, x) in made.iter().enumerate() {
            size += self.made_name_size(*x, k as u64);
        }
        size
    }
}
