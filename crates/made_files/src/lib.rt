// Files made field by field, right or wrong.
#![tactic(auto)]

mod builder;
mod counts;

pub use builder::Builder;
pub use counts::with_counts;

#[cfg(test)]
mod tests {
    use super::*;
    use std::test::Fail;

    // 1 in 8 bits, 1 in 5, 0 in 6, 31 in 5, 1 in 5, three bits of filling, and a letter.
    #[test]
    fn one_option_and_no_table(rt: HostRuntime) -> Result<(), Fail> {
        let file = with_counts(rt.alloc(), 1, &[])?;
        assert!(rt; file.as_slice() == [1, 8, 31, 8, 97].as_slice());
        Ok(())
    }

    // 1 in 3 bits, 0 and 1 in 5 each, 2 in 11; 1 and 2 in 5 each; six bits of filling, and a letter.
    #[test]
    fn a_scope_and_a_row(rt: HostRuntime) -> Result<(), Fail> {
        let mut file = Builder::new(rt.alloc());
        file.put_scope(&[0, 1], 2)?;
        file.put_row(&[1, 2])?;
        file.put_names(b"a")?;
        assert!(rt; file.finish().as_slice() == [32, 8, 2, 8, 128, 97].as_slice());
        Ok(())
    }
}
