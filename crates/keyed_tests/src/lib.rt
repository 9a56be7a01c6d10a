// Places and tables at two record types, each with values of its own: filled, emptied and filled again.
#![tactic(auto)]

ghost use Rattle.std.specs.Prelude.{◌≡◌, ◌+◌, ◌*◌, ◌^◌};

use keyed::Keyed;

// A record with a number for its key.
#[derive(Clone, Copy, PartialEq, Eq, Debug)]
pub struct Account {
    number: u16,
    cash: u32,
}

impl Keyed for Account {
    type Key = u16;

    ghost key = { λ a. a.number };

    fn key(&self) -> u16 {
        self.number
    }
}

// A record with a pair for its key.
#[derive(Clone, Copy, PartialEq, Eq, Debug)]
pub struct Line {
    portfolio: u16,
    code: u16,
    quantity: u32,
}

impl Keyed for Line {
    type Key = (u16, u16);

    ghost key = { λ l. l.portfolio * 2 ^ 16 + l.code };

    fn key(&self) -> (u16, u16) {
        (self.portfolio, self.code)
    }
}

#[cfg(test)]
mod tests {
    use super::*;
    use keyed::{Places, Refusal, Table};
    use std::test::Fail;

    fn account(number: u16, cash: u32) -> Account
        ensures { result.number ≡ number }
    {
        Account { number, cash }
    }

    // Of three places two serve: the table is filled, emptied and filled again.
    #[test]
    fn accounts(rt: HostRuntime) -> Result<(), Fail> {
        let places = vec![in rt.alloc(); account(0, 0); 3]?;
        let mut table = Table::new(places, 2);
        assert_eq!(rt; table.insert(account(9, 90)), Ok(()));
        assert_eq!(rt; table.insert(account(9, 91)), Err(Refusal::Taken));
        assert_eq!(rt; table.insert(account(4, 40)), Ok(()));
        assert_eq!(rt; table.insert(account(5, 50)), Err(Refusal::Full));
        assert_eq!(rt; table.get(9), Some(account(9, 90)));
        assert_eq!(rt; table.replace(account(9, 92)), Some(account(9, 90)));
        assert_eq!(rt; table.remove(9), Some(account(9, 92)));
        assert_eq!(rt; table.remove(4), Some(account(4, 40)));
        assert_eq!(rt; table.remove(4), None);
        assert_eq!(rt; table.insert(account(5, 50)), Ok(()));
        assert_eq!(rt; table.insert(account(3, 30)), Ok(()));
        assert_eq!(rt; table.len(), 2);
        assert_eq!(rt; table.get(5), Some(account(5, 50)));
        Ok(())
    }

    // Of two places two serve, though more are asked for.
    #[test]
    fn lines(rt: HostRuntime) -> Result<(), Fail> {
        let places = vec![in rt.alloc(); line(0, 0, 0); 2]?;
        let mut table = Table::new(places, 5);
        assert_eq!(rt; table.insert(line(2, 1, 10)), Ok(()));
        assert_eq!(rt; table.insert(line(1, 65_535, 20)), Ok(()));
        assert_eq!(rt; table.insert(line(2, 0, 30)), Err(Refusal::Full));
        let rows = table.rows();
        assert!(rt; rows.len() == 2);
        assert_eq!(rt; rows[0], line(1, 65_535, 20));
        assert_eq!(rt; table.remove((2, 1)), Some(line(2, 1, 10)));
        assert_eq!(rt; table.get((2, 1)), None);
        assert_eq!(rt; table.insert(line(2, 0, 30)), Ok(()));
        assert_eq!(rt; table.get((2, 0)), Some(line(2, 0, 30)));
        Ok(())
    }

    // The lines of one portfolio stand together.
    #[test]
    fn parts(rt: HostRuntime) -> Result<(), Fail> {
        let places = vec![in rt.alloc(); line(0, 0, 0); 3]?;
        let mut table = Table::new(places, 3);
        assert_eq!(rt; table.insert(line(2, 7, 1)), Ok(()));
        assert_eq!(rt; table.insert(line(3, 1, 1)), Ok(()));
        assert_eq!(rt; table.insert(line(2, 5, 1)), Ok(()));
        let part = table.between((2, 0), (2, 65_535));
        assert!(rt; part.len() == 2);
        assert_eq!(rt; part[0], line(2, 5, 1));
        assert_eq!(rt; part[1], line(2, 7, 1));
        assert!(rt; table.between((3, 2), (2, 9)).is_empty());
        Ok(())
    }

    // Of three places, each with a record, two others come in the place of all; then one more.
    #[test]
    fn places(rt: HostRuntime) -> Result<(), Fail> {
        let mut lines = Places::new(vec![in rt.alloc(); line(0, 0, 0); 3]?, 3);
        assert_eq!(rt; lines.append(line(2, 5, 1)), Ok(()));
        assert_eq!(rt; lines.append(line(2, 7, 1)), Ok(()));
        assert_eq!(rt; lines.append(line(3, 1, 1)), Ok(()));
        lines.load(&[line(4, 0, 0), line(3, 0, 0)]);
        assert!(rt; !lines.is_full());
        assert_eq!(rt; lines.append(line(1, 0, 0)), Ok(()));
        assert_eq!(rt; lines.append(line(5, 0, 0)), Err(Refusal::Full));
        assert!(rt; lines.is_full());
        let rows = lines.rows();
        assert!(rt; rows.len() == 3);
        assert_eq!(rt; rows[2], line(1, 0, 0));
        assert_eq!(rt; lines.row(0), line(4, 0, 0));
        lines.clear();
        assert_eq!(rt; lines.len(), 0);
        Ok(())
    }

    // Records whose keys rise come in the place of all, and are found.
    #[test]
    fn fills(rt: HostRuntime) -> Result<(), Fail> {
        let mut table = Table::new(vec![in rt.alloc(); account(0, 0); 3]?, 3);
        assert_eq!(rt; table.insert(account(8, 80)), Ok(()));
        table.fill(&[account(4, 40), account(9, 90)]);
        assert_eq!(rt; table.get(9), Some(account(9, 90)));
        assert_eq!(rt; table.get(8), None);
        assert_eq!(rt; table.insert(account(5, 50)), Ok(()));
        assert_eq!(rt; table.row(1), account(5, 50));
        Ok(())
    }

    // Records on places become a table once their keys rise, and the places come back with what was put in.
    #[test]
    fn moves(rt: HostRuntime) -> Result<(), Fail> {
        let mut accounts = Places::new(vec![in rt.alloc(); account(0, 0); 3]?, 3);
        accounts.load(&[account(4, 40), account(9, 90)]);
        let mut table = Table::of(accounts);
        assert_eq!(rt; table.get(9), Some(account(9, 90)));
        assert_eq!(rt; table.insert(account(5, 50)), Ok(()));
        let mut accounts = table.into_places();
        assert_eq!(rt; accounts.row(1), account(5, 50));
        assert!(rt; accounts.is_full());
        accounts.load(&[account(3, 30), account(2, 20)]);
        assert_eq!(rt; accounts.row(1), account(2, 20));
        Ok(())
    }

    // A record put at a key, another in its place, and none; then the table is cleared.
    #[test]
    fn puts(rt: HostRuntime) -> Result<(), Fail> {
        let mut table = Table::new(vec![in rt.alloc(); account(0, 0); 1]?, 1);
        assert!(rt; !table.is_full());
        table.set(7, Some(account(7, 70)));
        assert!(rt; table.is_full());
        table.set(7, Some(account(7, 71)));
        assert_eq!(rt; table.row(0), account(7, 71));
        table.set(7, None);
        assert_eq!(rt; table.get(7), None);
        assert_eq!(rt; table.insert(account(8, 80)), Ok(()));
        table.clear();
        assert_eq!(rt; table.len(), 0);
        Ok(())
    }

    fn line(portfolio: u16, code: u16, quantity: u32) -> Line {
        Line {
            portfolio,
            code,
            quantity,
        }
    }
}
