// The nodes of a search tree.
ghost use Rattle.std.specs.Prelude.{◌≡◌};
ghost use Rattle.cells.specs.Records.{no_links, record_in, leaf};
ghost use Rattle.cells.specs.Walks.{link_to, with_link};

use crate::record::Record;

// What hangs on either side of a node, by its slot; 0 if nothing does, since the root hangs nowhere.
#[derive(Clone, Copy)]
pub struct Links {
    pub left: usize,
    pub right: usize,
}

#[derive(Clone, Copy)]
pub enum Side {
    Left,
    Right,
}

impl Links {
    // Those of a leaf.
    pub const NONE: Links = Links { left: 0, right: 0 };

    pub(crate) fn to(self, side: Side) -> usize
        ensures value { result ≡ link_to side self }
    {
        match side {
            Side::Left => self.left,
            Side::Right => self.right,
        }
    }

    pub(crate) fn with(self, side: Side, i: usize) -> Links
        ensures value { result ≡ with_link side i self }
    {
        match side {
            Side::Left => Links { left: i, ..self },
            Side::Right => Links { right: i, ..self },
        }
    }
}

// A record with links: what a search tree is lent. It holds what the record holds.
#[derive(Clone, Copy)]
pub struct TreeNode<R> {
    pub(crate) record: R,
    pub(crate) links: Links,
}

impl<R: Record> Record for TreeNode<R> {
    type Key = R::Key;

    type Value = R::Value;

    ghost held = { λ n. R.held (record_in n) };

    ghost BLANK = { leaf R.BLANK };

    ghost made = { λ k v. leaf (R.made k v) };

    ghost blank = { R.blank };

    ghost holds = { R.holds };

    const BLANK: TreeNode<R> = TreeNode {
        record: R::BLANK,
        links: Links::NONE,
    };

    fn new(key: R::Key, value: R::Value) -> TreeNode<R> {
        TreeNode {
            record: R::new(key, value),
            links: Links::NONE,
        }
    }

    fn pair(self) -> Option<(R::Key, R::Value)> {
        self.record.pair()
    }
}
