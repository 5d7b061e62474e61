// What a line asks for, by its first word, and how many numbers it takes.

#[derive(Clone, Copy, Debug, PartialEq, Eq)]
pub enum Kind {
    Create,
    Append,
    Find,
    Prune,
    Release,
    ReleaseEmpty,
    Check,
    Seek,
    Next,
    Walk,
    Cursor,
    Words,
    List,
    Set,
    Put,
    Fill,
    Load,
    Dump,
    Chain,
    Shape,
    Picture,
}

// How many numbers a kind takes.
#[derive(Clone, Copy, Debug, PartialEq, Eq)]
pub enum Takes {
    Exactly(usize),
    NoneOr(usize),
    AtLeast(usize),
}

impl Kind {
    pub fn from_name(name: &[u8]) -> Option<Kind> {
        match name {
            b"create" => Some(Kind::Create),
            b"append" => Some(Kind::Append),
            b"find" => Some(Kind::Find),
            b"prune" => Some(Kind::Prune),
            b"release" => Some(Kind::Release),
            b"release_empty" => Some(Kind::ReleaseEmpty),
            b"check" => Some(Kind::Check),
            b"seek" => Some(Kind::Seek),
            b"next" => Some(Kind::Next),
            b"walk" => Some(Kind::Walk),
            b"cursor" => Some(Kind::Cursor),
            b"words" => Some(Kind::Words),
            b"list" => Some(Kind::List),
            b"set" => Some(Kind::Set),
            b"put" => Some(Kind::Put),
            b"fill" => Some(Kind::Fill),
            b"load" => Some(Kind::Load),
            b"dump" => Some(Kind::Dump),
            b"chain" => Some(Kind::Chain),
            b"shape" => Some(Kind::Shape),
            b"picture" => Some(Kind::Picture),
            _ => None,
        }
    }

    pub fn takes(self) -> Takes {
        match self {
            Kind::ReleaseEmpty | Kind::Check | Kind::Next | Kind::Cursor => Takes::Exactly(0),
            Kind::Chain | Kind::Shape | Kind::Picture => Takes::Exactly(0),
            Kind::Find | Kind::Release | Kind::Seek | Kind::Walk | Kind::Fill => Takes::Exactly(1),
            Kind::Append | Kind::Set => Takes::Exactly(2),
            Kind::Create | Kind::Put => Takes::Exactly(3),
            Kind::Words | Kind::List => Takes::NoneOr(1),
            Kind::Dump => Takes::NoneOr(2),
            Kind::Prune | Kind::Load => Takes::AtLeast(2),
        }
    }
}
