//! The sets of characters that the parts of a listing line are made of. A part is mostly a run
//! of one class, so a run is found by one loop made for its class: asking at each character which
//! class it is takes longer than the test itself. A blank is any Unicode White_Space, a digit is
//! `0` to `9` alone.
ghost use Rattle.std.specs.Prelude.{◌≡◌, ◌≤◌, length};
ghost use Rattle.std.specs.List.{prefix_len};
ghost use Rattle.ftp_list.specs.Shapes.{is_in, all_in};

/// A set of characters.
#[derive(Clone, Copy, Debug, PartialEq, Eq)]
pub enum Class {
    /// `-`, `l` and `d`: what kind of file it is.
    Kind,
    /// `-rwxsStT`: one permission.
    Permission,
    /// Unicode White_Space.
    Blank,
    /// `0` to `9`.
    Digit,
    /// All but the space.
    NotSpace,
    /// All but the line feed.
    NotLineFeed,
    /// `0` to `9` and the comma.
    DigitOrComma,
    /// `-`.
    Dash,
    /// `:`.
    Colon,
}

impl Class {
    /// Whether the character belongs to the class.
    #[inline(always)]
    #[tactic(auto, unfolding(crate::specs::Shapes::is_in))]
    pub fn contains(self, c: char) -> bool
        ensures { result ≡ is_in self c }
    {
        match self {
            Class::Kind => c == '-' || c == 'l' || c == 'd',
            Class::Permission => is_permission(c),
            Class::Blank => c.is_whitespace(),
            Class::Digit => c.is_ascii_digit(),
            Class::NotSpace => c != ' ',
            Class::NotLineFeed => c != '\n',
            Class::DigitOrComma => c.is_ascii_digit() || c == ',',
            Class::Dash => c == '-',
            Class::Colon => c == ':',
        }
    }

    /// How many characters of the class the text begins with.
    pub fn run(self, text: &[char]) -> usize
        ensures value { result ≡ prefix_len (is_in self) text.now }
        ensures bound { result ≤ length text.now }
    {
        // Each call is made for its one class, so that no loop asks which class it is.
        match self {
            Class::Kind => Class::Kind.run_of_one(text),
            Class::Permission => Class::Permission.run_of_one(text),
            Class::Blank => Class::Blank.run_of_one(text),
            Class::Digit => Class::Digit.run_of_one(text),
            Class::NotSpace => Class::NotSpace.run_of_one(text),
            Class::NotLineFeed => Class::NotLineFeed.run_of_one(text),
            Class::DigitOrComma => Class::DigitOrComma.run_of_one(text),
            Class::Dash => Class::Dash.run_of_one(text),
            Class::Colon => Class::Colon.run_of_one(text),
        }
    }

    #[inline(always)]
    fn run_of_one(self, text: &[char]) -> usize
        ensures value { result ≡ prefix_len (is_in self) text.now }
        ensures bound { result ≤ length text.now }
    {
        for (i, c) in text.iter().enumerate() {
            if !self.contains(*c) {
                return i;
            }
        }
        text.len()
    }

    /// Whether all characters belong to the class.
    pub fn has_all(self, text: &[char]) -> bool
        ensures { result ≡ all_in self text.now }
    {
        text.iter().all(|c| self.contains(*c))
    }
}

#[tactic(auto, unfolding(crate::specs::Shapes::is_in))]
fn is_permission(c: char) -> bool
    ensures { result ≡ is_in Class.Permission c }
{
    c == '-' || c == 'r' || c == 'w' || c == 'x' || c == 's' || c == 'S' || c == 't' || c == 'T'
}
