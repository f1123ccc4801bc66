// Addresses (FIPS 205, sections 4.2 and 4.3), made by type and words: a word that the type lacks is cleared.
#![tactic(auto)]

ghost use Rattle.std.specs.Prelude.{◌≡◌};
ghost use Rattle.rules.specs.Places.{address};
ghost use Rattle.addresses.specs.Addresses.{number_of, Decodes, bytes_of, made, place_at, address_at};

use std::error::Error;
use std::fmt;

// The kinds of place, each with a type of address: the numbers 0 to 6 (section 4.2).
#[derive(Clone, Copy, Debug, PartialEq, Eq)]
pub enum PlaceKind {
    ChainStep,
    ChainEnds,
    TreeNode,
    ForestNode,
    ForestRoots,
    ChainSecret,
    ForestSecret,
}

// A number that no type has.
#[derive(Clone, Copy, Debug, PartialEq, Eq)]
pub struct UnknownKind(pub u32);

impl fmt::Display for UnknownKind {
    ghost use Rattle.std.specs.Prelude.{Some};
    ghost use Rattle.addresses.specs.Addresses.{unknown_text};

    ghost output = { λ e. Some (unknown_text e) };

    fn fmt<W: fmt::Write>(&self, f: &mut fmt::Formatter<W>) -> fmt::Result {
        write!(f, "no type of address has number {}", self.0)
    }
}

impl Error for UnknownKind {}

impl From<PlaceKind> for u32 {
    ghost from_gives = { λ kind number. number ≡ number_of kind };

    fn from(kind: PlaceKind) -> u32 {
        kind as u32
    }
}

impl TryFrom<u32> for PlaceKind {
    type Error = UnknownKind;

    ghost try_from_gives = { Decodes };

    fn try_from(number: u32) -> Result<PlaceKind, UnknownKind> {
        match number {
            0 => Ok(PlaceKind::ChainStep),
            1 => Ok(PlaceKind::ChainEnds),
            2 => Ok(PlaceKind::TreeNode),
            3 => Ok(PlaceKind::ForestNode),
            4 => Ok(PlaceKind::ForestRoots),
            5 => Ok(PlaceKind::ChainSecret),
            6 => Ok(PlaceKind::ForestSecret),
            _ => Err(UnknownKind(number)),
        }
    }
}

// The words of an address (figure 2). The type stands as its number and not as a `PlaceKind`, since `address_bytes`
// writes any words.
#[derive(Clone, Copy, Debug, PartialEq, Eq)]
pub struct Address {
    pub layer: u32,
    pub tree: u64,
    pub kind: u32,
    pub one: u32,
    pub two: u32,
    pub three: u32,
}

// The address of a type by its number; a number above 6 is refused, and a word that the type lacks is cleared.
#[tactic(auto, unfolding(rules::specs::Places::address), using(crate::proofs::AddressLaws::numbered))]
pub fn address_of(
    number: u32,
    layer: u32,
    tree: u64,
    one: u32,
    two: u32,
    three: u32,
) -> Result<Address, UnknownKind>
    ensures { made result ≡ address_at number layer tree one two three }
{
    let all = Address {
        layer,
        tree,
        kind: number,
        one,
        two,
        three,
    };
    Ok(match PlaceKind::try_from(number)? {
        PlaceKind::ChainStep => all,
        PlaceKind::ChainEnds => Address {
            two: 0,
            three: 0,
            ..all
        },
        PlaceKind::TreeNode => Address { one: 0, ..all },
        PlaceKind::ForestNode => Address { layer: 0, ..all },
        PlaceKind::ForestRoots => Address {
            layer: 0,
            two: 0,
            three: 0,
            ..all
        },
        PlaceKind::ChainSecret => Address { three: 0, ..all },
        PlaceKind::ForestSecret => Address {
            layer: 0,
            two: 0,
            ..all
        },
    })
}

// The address of a type, whose number is never refused.
#[tactic(auto, using(crate::proofs::AddressLaws::numbered))]
pub fn address_at(kind: PlaceKind, layer: u32, tree: u64, one: u32, two: u32, three: u32) -> Address
    ensures { bytes_of result ≡ address (place_at (number_of kind) layer tree one two three) }
{
    let blank = Address {
        layer: 0,
        tree: 0,
        kind: 0,
        one: 0,
        two: 0,
        three: 0,
    };
    address_of(u32::from(kind), layer, tree, one, two, three).unwrap_or(blank)
}

// The 32 bytes of an address.
pub fn address_bytes(a: Address) -> [u8; 32]
    ensures { result ≡ bytes_of a }
{
    let mut bytes = [0; 32];
    bytes[..4].copy_from_slice(&a.layer.to_be_bytes());
    bytes[8..16].copy_from_slice(&a.tree.to_be_bytes());
    bytes[16..20].copy_from_slice(&a.kind.to_be_bytes());
    bytes[20..24].copy_from_slice(&a.one.to_be_bytes());
    bytes[24..28].copy_from_slice(&a.two.to_be_bytes());
    bytes[28..].copy_from_slice(&a.three.to_be_bytes());
    bytes
}
