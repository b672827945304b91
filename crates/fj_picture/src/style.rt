use crate::px::{Px, WIDTH};
use std::fmt;

/// The styles, and a white background.
const STYLE: &str = "<style>
text{font-family:Inter,system-ui,-apple-system,'Segoe UI',Helvetica,Arial,sans-serif;font-size:10px;fill:#3a4350}
.t{font-size:19px;font-weight:600;fill:#1d242d}.s{font-size:12.5px;fill:#5b6675}.l{font-size:12px}
.w{font-size:12px;text-anchor:end}.a{text-anchor:middle;fill:#8a94a3}.v{font-size:11px;text-anchor:end;fill:#8a94a3}
.e{font-size:10.5px;text-anchor:end;fill:#5b6675}.lane{fill:#f3f5f8}.g{stroke:#dfe4ea}
.b,.o{stroke:#fff;stroke-width:.4}.o{fill-opacity:.75;stroke-dasharray:3 2}
.m{fill:#fff;font-weight:600}.c{fill:#fff;font-weight:600;text-anchor:middle}.z{fill-opacity:.8}
.k{font-size:14px;text-anchor:middle;fill:#5b6675;font-weight:700;paint-order:stroke;stroke:#fff;stroke-width:2.5px}.f{fill:#fff}
.st{stroke:#d9770f;stroke-width:1.2;fill:none}.d{fill:#d9770f;stroke:#fff;stroke-width:.8}
.os{stroke:#d9770f;stroke-width:1.2}.ox{stroke:#c9343c;stroke-width:1.2}.om{stroke:#fff;stroke-width:1.4}.oe{stroke:#1d242d;stroke-width:1.2}
.p{stroke:#5b6675;stroke-width:1.2;stroke-dasharray:4 3}.q{stroke:#c9343c}
</style>
<rect width=\"100%\" height=\"100%\" rx=\"8\" fill=\"#ffffff\"/>
";

/// The beginning of a picture of this height: its size, its styles, a white background.
pub fn write_head<W: fmt::Write>(height: Px, out: &mut W) -> fmt::Result {
    let width = WIDTH;
    writeln!(
        out,
        "<svg xmlns=\"http://www.w3.org/2000/svg\" width=\"{width}\" height=\"{height}\" viewBox=\"0 0 {width} {height}\" role=\"img\" aria-label=\"history of a fork-join pool\">"
    )?;
    out.write_str(STYLE)
}
