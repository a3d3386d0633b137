use anyhow::{Result, ensure};
use setup::{Arguments, Options, Ram, WordRange, read_arguments};

/// The arguments of a file, with these options.
fn told(shield: Option<WordRange>, ram: Option<Ram>) -> Option<Arguments<'static>> {
    Some(Arguments {
        file: "f",
        options: Options { shield, ram },
    })
}

#[test]
fn good_arguments() -> Result<()> {
    let shield = Some(WordRange { from: 1, to: 15 });
    let ram = Some(Ram {
        at: 1024,
        words: 65_536,
    });
    ensure!(read_arguments(&["f"]) == told(None, None));
    ensure!(read_arguments(&["f", "--shield", "1", "0xF"]) == told(shield, None));
    ensure!(read_arguments(&["f", "--ram", "0x400", "65536"]) == told(None, ram));
    ensure!(
        read_arguments(&["f", "--shield", "1", "15", "--ram", "1024", "0x10000"])
            == told(shield, ram)
    );
    ensure!(
        read_arguments(&["f", "--ram", "1024", "65536", "--shield", "01", "0x0f"])
            == told(shield, ram)
    );
    let whole = Some(WordRange {
        from: u32::MAX,
        to: 0,
    });
    ensure!(read_arguments(&["f", "--shield", "4294967295", "0"]) == told(whole, None));
    Ok(())
}

/// Arguments that are refused.
#[test]
fn bad_arguments() -> Result<()> {
    ensure!(read_arguments(&[]) == None);
    ensure!(read_arguments(&["f", "g"]) == None);
    ensure!(read_arguments(&["f", "--shield"]) == None);
    ensure!(read_arguments(&["f", "--shield", "1"]) == None);
    ensure!(read_arguments(&["f", "--shield", "1", "2", "3"]) == None);
    ensure!(read_arguments(&["f", "--shield", "1", "4294967296"]) == None);
    ensure!(read_arguments(&["f", "--shield", "-1", "2"]) == None);
    ensure!(read_arguments(&["f", "--Shield", "1", "2"]) == None);
    ensure!(read_arguments(&["f", "--ram", "0", "65537"]) == None);
    ensure!(read_arguments(&["f", "--ram", "0", ""]) == None);
    ensure!(read_arguments(&["f", "--ram", "0", "1", "--ram", "0", "1"]) == None);
    ensure!(read_arguments(&["f", "--shield", "0", "1", "--shield", "0", "1"]) == None);
    ensure!(read_arguments(&["f", "--shield", "0", "1", "--ram", "0"]) == None);
    ensure!(read_arguments(&["f", "--shield", "0", "1", "--ram", "0", "1", "x"]) == None);
    ensure!(read_arguments(&["--shield", "0", "1"]) == None);
    Ok(())
}
