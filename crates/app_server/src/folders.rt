// What a server of the document of a folder has before it serves.
ghost use Rattle.std.specs.Prelude.{IfErr, IfOk, string_bytes};
ghost use Rattle.net_http.specs.Identities.{IsIdentity};
ghost use Rattle.app_storage.specs.Faults.{IsPreparingFault};

use crate::opening::{FolderJournal, OpenFolder, OpenRoom, listen, open_room};
use crate::own_document::{OwnDocument, OwnRoom};
use app_args::Serving;
use app_faults::Fault;
use app_identity::identity;
use std::net::{Net, TcpListener, TcpStream};

/// Listens, and opens the folder (`open_room`).
pub(crate) fn take_folder<R>(
    rt: &R,
    files: HostRuntime,
    dir: &str,
    serving: &Serving,
) -> Result<OwnRoom<FolderJournal>, Fault>
where
    R: Net<Listener = TcpListener, Stream = TcpStream>,
    ensures named { IfOk result (λ taken. IsIdentity (string_bytes taken.1.identity)) }
    ensures faults { IfErr result (IsPreparingFault serving.now.workers) }
{
    let listener = listen(rt, serving.port)?;
    let workers = serving.workers as usize;
    let OpenFolder {
        opened,
        removed,
        space,
        path,
    } = open_room(files, dir, workers, serving.accept_loss)?;
    let identity = identity(&files, &path)?;
    let OpenRoom { room, meter, notes } = opened;
    let document = OwnDocument {
        listener,
        meter,
        notes,
        identity,
        space: Some(space),
        removed: Some(removed),
        tenure: None,
    };
    Ok((room, document))
}
