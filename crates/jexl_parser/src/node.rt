// The nodes of trees. Parts stand in the order of the text, and parentheses make no node.
use sequences::Text;

/// The most nodes on a path of a tree.
pub const MAX_HEIGHT: u16 = 512;

/// A constant. A number with `-` before it is one constant.
#[derive(Drop)]
pub enum Literal {
    Null,
    Truth(bool),
    Whole(i64),
    Text(Text),
}

/// The operator of a binary node. `Inside` is `in`.
#[derive(Clone, Copy, Debug, PartialEq, Eq)]
pub enum BinarySign {
    And,
    Or,
    Equal,
    NotEqual,
    Less,
    AtMost,
    Greater,
    AtLeast,
    Inside,
    Plus,
    Minus,
    Times,
    FloorDiv,
    Percent,
    Power,
}

/// A tree.
#[derive(Drop)]
pub enum Node {
    Literal(Literal),
    /// A name that stands for an attribute.
    Name(Text),
    /// `.name`, a member of the current item of a filter.
    Relative(Text),
    /// `[a, b]`.
    List(Vec<Node>),
    /// `{a: b, "c": d}`, with repeated keys, in the order of the text.
    Members(Vec<(Text, Node)>),
    /// `a.name`.
    Member(Box<Node>, Text),
    /// `a[b]`, where no relative name belongs to the bracket.
    Index(Box<Node>, Box<Node>),
    /// `a[b]`, where a relative name belongs to the bracket.
    Filter(Box<Node>, Box<Node>),
    /// `a|name` and `a|name(b, c)`.
    Transform(Box<Node>, Text, Vec<Node>),
    /// `!a`.
    Not(Box<Node>),
    Binary(BinarySign, Box<Node>, Box<Node>),
    /// `a ? b : c`.
    Choose(Box<Node>, Box<Node>, Box<Node>),
    /// `a ?: c`.
    OrElse(Box<Node>, Box<Node>),
}
