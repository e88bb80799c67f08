ghost use Rattle.std.specs.Prelude.{◌≡◌};
ghost use Rattle.std.specs.Cmp.Lexicographic.{pointwise, lists_per, lists_equiv};

use std::marker::Model;

/// A `Vec` that contracts see as the list of its items.
#[derive(Debug, Drop)]
pub struct List<T> {
    items: Vec<T>,
}

impl<T> Model for List<T> {
    ghost use Rattle.std.specs.Prelude.{List};
    ghost use Rattle.std.specs.Coded.{coded_list};

    ghost Value = { List T };

    ghost coded = { coded_list T.code };

    ghost view = { λ list. list.items.items };
}

impl<T> List<T> {
    pub fn new(items: Vec<T>) -> List<T>
        ensures { result ≡ items.items }
    {
        List { items }
    }

    pub fn as_slice(&self) -> &[T]
        ensures { result.now ≡ self.now }
    {
        self.items.as_slice()
    }

    pub fn into_vec(self) -> Vec<T>
        ensures { result.items ≡ self }
    {
        let List { items } = self;
        items
    }
}

impl<T: PartialEq> PartialEq for List<T> {
    ghost eq = { pointwise T.eq };

    ghost laws = { lists_per T.laws };

    fn eq(&self, other: &Self) -> bool {
        self.as_slice() == other.as_slice()
    }
}

impl<T: Eq> Eq for List<T> {
    ghost laws = { lists_equiv T.Eq.laws };
}

#[cfg(test)]
mod tests {
    use super::*;
    use crate::types::Ty;
    use std::test::Fail;

    #[derive(Copy, Clone, PartialEq, Eq, Debug)]
    enum CellType {
        Integer(Ty),
        Pointer,
    }

    #[test]
    fn gives_back_what_it_was_made_of(rt: HostRuntime) -> Result<(), Fail> {
        let types = [CellType::Integer(Ty::INT), CellType::Pointer].to_vec(rt.alloc())?;
        let list = List::new(types);
        assert_eq!(rt; list.as_slice().len(), 2);
        let alike = List::new([CellType::Integer(Ty::INT), CellType::Pointer].to_vec(rt.alloc())?);
        let other = List::new([CellType::Integer(Ty::UINT), CellType::Pointer].to_vec(rt.alloc())?);
        assert_eq!(rt; list, alike);
        assert_ne!(rt; list, other);
        let back = list.into_vec();
        assert_eq!(rt;
            back.as_slice(),
            [CellType::Integer(Ty::INT), CellType::Pointer].as_slice()
        );
        Ok(())
    }
}
