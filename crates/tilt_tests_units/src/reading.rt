// Texts in units, and the queries over whole numbers that they are.
use crate::texts::{TEXTS, TextCase, WHOLE};
use std::alloc::Global;
use std::test::Fail;
use tilt_input_scales::{InputScale, Scales};
use tilt_lexer::Name;
use tilt_syntax::print;
use tilt_unit_text::{UnitFault, UnitQuery, read_in_units};

// The scales of inputs by name; the others have the scale 1.
pub fn scales_of(alloc: Global, given: &[(&str, u64)]) -> Result<Scales, Fail> {
    let mut scales = Scales::new(alloc, 1);
    for (name, scale) in given {
        push_scale(alloc, &mut scales, name, *scale)?;
    }
    Ok(scales)
}

fn push_scale(alloc: Global, scales: &mut Scales, name: &str, scale: u64) -> Result<(), Fail> {
    if scale < 1 || scale > 1_000_000_000_000_000_000 {
        return Err("no scale".into());
    }
    let name = Name::read(alloc, name.as_bytes())?.ok_or("no name")?;
    scales.push(InputScale { name, scale })?;
    Ok(())
}

fn read(alloc: Global, case: &TextCase) -> Result<Result<UnitQuery, UnitFault>, Fail> {
    let (text, given, _) = case;
    let scales = scales_of(alloc, given)?;
    Ok(read_in_units(alloc, text.as_bytes(), &scales))
}

// What the last definition represents, and its expression; or the fault.
fn show(alloc: Global, case: &TextCase) -> Result<String, Fail> {
    match read(alloc, case)? {
        Ok(query) => {
            let quantity = query.quantities.last().ok_or("no source")?;
            let def = query.core.defs().last().ok_or("no definition")?;
            Ok(format!(in alloc; "{quantity:?} {:?}", def.body)?)
        }
        Err(fault) => Ok(format!(in alloc; "{fault:?}")?),
    }
}

#[test]
fn texts_are_queries_over_whole_numbers(rt: HostRuntime) -> Result<(), Fail> {
    let alloc = rt.alloc();
    for case in TEXTS {
        let shown = show(alloc, case)?;
        assert_eq!(rt; shown.as_str(), case.2);
    }
    Ok(())
}

// A sum of a price in hundredths and 100 readings in tenths, each of which is multiplied by 10.
#[test]
fn large_expressions_have_the_place_of_their_statement(rt: HostRuntime) -> Result<(), Fail> {
    let alloc = rt.alloc();
    let mut sum = String::from_str(alloc, "price")?;
    for _ in 0..100 {
        sum.push_str(" + spo2")?;
    }
    let text = format!(in alloc; "input spo2; input price; emit {sum} over (0, 600];")?;
    let scales = scales_of(alloc, &[("price", 100), ("spo2", 10)])?;
    let given = read_in_units(alloc, text.as_bytes(), &scales);
    assert!(rt; given.err() == Some(UnitFault::WholeTooLarge { statement: 3 }));
    Ok(())
}

// The text of the query over whole numbers.
fn show_query(alloc: Global, case: &TextCase) -> Result<String, Fail> {
    let query = read(alloc, case)?.map_err(|_| "a fault")?.query;
    Ok(String::from_utf8(print(alloc, &query)?)?)
}

#[test]
fn queries_over_whole_numbers_have_texts(rt: HostRuntime) -> Result<(), Fail> {
    let alloc = rt.alloc();
    for case in WHOLE {
        let shown = show_query(alloc, case)?;
        assert_eq!(rt; shown.as_str(), case.2);
    }
    Ok(())
}
