//! Laws of units and their items: functions with a contract and no code.

ghost use Rattle.gimli.specs.ItemLaws.{ItemLaws, UnitLaws};
ghost use Rattle.gimli.specs.HeaderOrder.{HeadersInOrder};
ghost use Rattle.gimli.specs.FaultLaws.{SectionsAreNotRefused};

/// A section that is read to its end is the texts of its units, one after another, and in the text
/// of a unit its entries follow its header.
pub fn unit_laws()
    ensures law { UnitLaws }
{}

/// The units of a section stand one after another: of those whose headers can be read each ends
/// before a later one begins.
pub fn headers_in_order()
    ensures law { HeadersInOrder }
{}

/// The entries of a unit that are read to its end are the texts of its items, one after another,
/// and of no others. The items between an item and the end of its subtree lie deeper than it. After
/// the subtree of an entry the depth is its own again; where no items end it, the fault is theirs,
/// or `UnexpectedEof`.
pub fn item_laws()
    ensures law { ItemLaws }
{}

/// Nothing that sections give is `OutOfMemory`, whatever their bytes are: headers, units, entries
/// and their items, strings, addresses and ranges are values or other faults. So an answer
/// `OutOfMemory` of a call is never what the sections give.
pub fn fault_laws()
    ensures law { SectionsAreNotRefused }
{}
