// A line by its fields.
ghost use Rattle.std.specs.Prelude.{◌≡◌, ◌≢◌, ◌<◌, length, MatchOption};
ghost use Rattle.text.specs.Lines.{fields};
ghost use Rattle.text.specs.Cuts.{EndsAre, FieldIs};

// A line of exactly N fields, and where each ends. (An array of the fields themselves, as references, gets no proof.)
#[derive(Clone, Copy)]
pub struct Fields<'a, const N: usize> {
    pub line: &'a [u8],
    ends: [usize; N],
    pub ghost cut: { EndsAre N line.now ends },
}

impl<'a, const N: usize> Fields<'a, N> {
    // One pass over a line, which stops where a field too many begins.
    pub fn of(line: &'a [u8]) -> Option<Self>
        ensures { MatchOption result (length (fields line.now) ≢ N) (λ f. f.line.now ≡ line.now) }
    {
        let mut ends = [0; N];
        let mut count = 0;
        for (i, &b) in line.iter().enumerate() {
            if b == b',' {
                if count == N {
                    return None;
                }
                ends[count] = i;
                count += 1;
            }
        }
        if count + 1 != N {
            return None;
        }
        ends[count] = line.len();
        Some(Fields { line, ends })
    }

    // Field k, as the part of the line from where it starts to where it ends.
    pub fn at(&self, k: usize) -> &'a [u8]
        requires { k < N }
        ensures { FieldIs self.now.line.now k result.now }
    {
        let end = self.ends[k];
        if k == 0 {
            return &self.line[..end];
        }
        let start = self.ends[k - 1] + 1;
        &self.line[start..end]
    }
}
