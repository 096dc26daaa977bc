// A kind of value, and the form in which a row keeps it.
ghost use Rattle.std.specs.Prelude.{◌≡◌};

pub trait Value: Copy {
    type Row: Copy;

    // the row form of a value
    ghost rowed: { Self → Self.Row };

    // the value that a row form stands for
    ghost unrowed: { Self.Row → Self };

    // A value comes back from its row form. This is a clause and no law, since it holds of the floats that a program has and not of every real number;
    // From could state it by a law alone, so the two ways are methods of this trait.
    fn to_row(self) -> Self::Row
        ensures form { result ≡ rowed self }
        ensures back { unrowed result ≡ self };

    fn from_row(row: Self::Row) -> Self
        ensures value { result ≡ unrowed row };
}
