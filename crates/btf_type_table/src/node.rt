// The type of an id, and what ordering and emission see of it.
ghost use Rattle.std.specs.Prelude.{◌≡◌};
ghost use Rattle.spec_type_table.specs.Records.{record_by_id};
ghost use Rattle.spec_type_table.specs.Table.{type_of};
ghost use Rattle.spec_c_dumper.specs.rules.Types.{node_of};
ghost use Rattle.spec_type_table.specs.Nodes.{node_is};

use crate::cell;
use crate::cell::get_field;
use crate::kind::entries_of;
use crate::table::Table;
use spec_type_table::{BtfType, Kind, Node};

// A type by its id, with its record.
#[derive(Clone, Copy)]
pub struct TypeRef {
    pub id: u32,
    pub t: BtfType,
}

impl Table<'_> {
    // The type of an id: void is 0, and so is what lies past the table.
    pub fn type_by_id(&self, work: &[u8], id: u32) -> BtfType
        ensures { result ≡ record_by_id self.now.head self.now.section.now work.now id }
    {
        if id == 0 {
            return BtfType::default();
        }
        if self.head.types <= id {
            return BtfType::default();
        }
        self.load_type(get_field(work, id, cell::PLACE))
    }

    #[tactic(auto, using(spec_type_table::proofs::KindTypes::node_types), unfolding(spec_type_table::specs::Nodes::node_is))]
    pub fn node_of(&self, t: BtfType) -> Node
        ensures { node_is self.now.head self.now.section.now result ≡ node_of (type_of self.now.head self.now.section.now t) }
    {
        match Kind::of(t.info) {
            Kind::Ptr => Node::Ptr(t.type_id),
            Kind::Array => Node::Array(self.extra_word(t)),
            Kind::Struct | Kind::Union => Node::Composite(entries_of(t)),
            Kind::Enum | Kind::Enum64 => Node::Enum,
            Kind::Fwd => Node::Fwd,
            Kind::Typedef => Node::Typedef(t.type_id),
            Kind::Volatile | Kind::Const | Kind::Restrict | Kind::TypeTag => Node::Through(
                t.type_id,
            ),
            Kind::Func | Kind::Var | Kind::Datasec | Kind::DeclTag => Node::Ignored,
            Kind::FuncProto => Node::Proto(t.type_id, entries_of(t)),
            Kind::Void | Kind::Int | Kind::Float | Kind::Unknown => Node::Plain,
        }
    }
}
