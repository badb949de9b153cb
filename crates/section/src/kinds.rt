//! The two kinds of section, by their table_id.
ghost use Rattle.std.specs.Prelude.{◌≡◌};
ghost use Rattle.refusal.specs.Rules.{Obeys};
ghost use Rattle.section.specs.Kinds.{table_id_of, table_rule};

use refusal::Refusal;

/// What a section carries.
#[derive(Clone, Copy, PartialEq, Eq, Debug)]
pub enum Kind {
    /// A datagram section: one IP datagram of the application table.
    Datagram,
    /// An MPE-FEC section: one check column of the RS table.
    Check,
}

impl Kind {
    /// The table_id that sections of this kind begin with.
    // No `From`: `u8::from(kind)` would not say that it is a table_id. Nor a trait with `IpVersion::number`: it would be
    // longer than both.
    pub fn table_id(self) -> u8
        ensures { result ≡ table_id_of self }
    {
        match self {
            Kind::Datagram => 0x3e,
            Kind::Check => 0x78,
        }
    }
}

/// The kind that a table_id stands for; any other number is refused.
impl TryFrom<u8> for Kind {
    type Error = Refusal;

    ghost try_from_gives = { λ table_id. Obeys (table_rule table_id) (λ kind. table_id_of kind ≡ table_id) };

    fn try_from(table_id: u8) -> Result<Kind, Refusal> {
        match table_id {
            0x3e => Ok(Kind::Datagram),
            0x78 => Ok(Kind::Check),
            _ => Err(Refusal::TableId),
        }
    }
}
