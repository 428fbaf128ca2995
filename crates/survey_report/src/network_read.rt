use crate::OutOfMemory;
use crate::survey_file::SurveyFile;
use net_model::Net;
use network_survey::{Port, up_ports};
use std::alloc::Global;
use std::marker::Model;

/// A network that was read of files.
#[derive(Drop)]
pub(crate) struct NetworkRead<'n, 'f, 't> {
    net: &'n Net,
    ports: Vec<Port<'n>>,
    files: &'f [SurveyFile<'t>],
}

impl<'n, 'f, 't> Model for NetworkRead<'n, 'f, 't> {
    ghost use Rattle.network_survey.specs.Ports.{IsUpPort, ListsUpPorts};
    ghost use Rattle.survey_report.specs.KindTexts.{NetworkRead};

    ghost Value = { NetworkRead };

    ghost view = { λ x. record { net = x.net.now; files = x.files.now } };

    ghost invariant = { λ x. ListsUpPorts (IsUpPort x.net.now) x.ports.items };
}

impl<'n, 'f, 't> NetworkRead<'n, 'f, 't> {
    ghost use Rattle.std.specs.Prelude.{◌≡◌, IfOk};
    ghost use Rattle.network_survey.specs.Ports.{IsUpPort, ListsUpPorts};

    /// The network of these files.
    pub fn of(
        alloc: Global,
        net: &'n Net,
        files: &'f [SurveyFile<'t>],
    ) -> Result<NetworkRead<'n, 'f, 't>, OutOfMemory>
        ensures { IfOk result (λ read. read ≡ record { net = net.entry.now; files = files.entry.now }) }
    {
        let ports = up_ports(alloc, net)?;
        Ok(NetworkRead { net, ports, files })
    }

    /// The network.
    pub fn net(&self) -> &'n Net
        ensures { result.now ≡ self.now.net }
    {
        self.net
    }

    /// Its up interfaces.
    pub fn ports(&self) -> &[Port<'n>]
        ensures { ListsUpPorts (IsUpPort self.now.net) result.now }
    {
        self.ports.as_slice()
    }

    /// The files.
    pub fn files(&self) -> &'f [SurveyFile<'t>]
        ensures { result.now ≡ self.now.files }
    {
        self.files
    }
}
